#![tactic(auto)]

mod call;
mod checks;
pub mod examples;
mod faults;
mod reader;
#[cfg(test)]
mod tests;
mod writer;

pub use call::RawCall;
pub use faults::RecordFault;
pub use reader::Reader;
pub use writer::write_record;
