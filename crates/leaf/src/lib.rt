#![tactic(auto)]

mod bye;
pub mod examples;
mod peterson;

pub use bye::Bye;
pub use peterson::Peterson;
