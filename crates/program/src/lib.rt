#![tactic(auto)]

pub mod examples;
mod faults;
mod runs;
mod text;

pub use faults::{ProgramFault, RunError};
pub use runs::run;
pub use text::{refusal_line, report_lines};
