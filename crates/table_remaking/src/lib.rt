//! The table of a receipt, made again and compared.
#![tactic(auto)]

mod again;

pub use again::{AgainFault, MadeBy, TableThere, compare_again};
