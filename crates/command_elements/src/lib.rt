//! The elements that are known: those built in, those of files, and which of them a word fits.
#![tactic(auto)]

mod error_lines;
mod fitting;
mod lines;
mod listing;
mod running;
mod search;
mod type_names;

pub use error_lines::write_out_of_memory;
pub use fitting::fits;
pub use listing::list_elements;
pub use running::run_elements;
pub use search::{Listed, Search};
pub use type_names::type_name;
