//! Whose files are: what a word tells of a file, and what the name of a recording's file tells.
#![tactic(auto)]

mod recorded_names;
mod told_exporter;

pub use recorded_names::{file_name, recorded_exporter};
pub use told_exporter::ToldExporter;
