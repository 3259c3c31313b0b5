//! Information elements that are known from files, beside those that are built in.
#![tactic(auto)]

mod added;
mod columns;
mod elements;
mod entry;
mod fault;
mod kind;
pub mod laws;
mod names;
mod numbers;
mod places;
mod reading;
mod row;
mod rows;
mod types;

pub use added::Added;
pub use elements::Elements;
pub use entry::Entry;
pub use fault::{ElementsError, ElementsFault, Heading};
pub use kind::ElementKind;
pub use reading::add_file;
