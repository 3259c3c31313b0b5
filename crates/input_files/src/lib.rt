//! The text of a file by its path, and files of elements, read one after another, with what is told of them.
#![tactic(auto)]

mod file_lines;
mod loading;
mod reading;

pub use loading::load_elements;
pub use reading::ReadText;
