//! The command that dumps a source: what was written is the dump of what was read.
#![tactic(auto)]

mod dump;
mod dump_fault;
mod ending;
mod job;

pub use dump::{run_dump, run_dump_with};
pub use dump_fault::write_dump_fault;
pub use job::DumpJob;
