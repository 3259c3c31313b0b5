//! Rows that are added up by key, with no block of memory for each: they wait in a buffer, are sorted
//! into runs that ascend by key, and runs are merged as they grow.
#![tactic(auto)]

mod adding;
mod bounds;
mod folding;
mod held;
mod lookup;
mod merging;
mod numbers;
mod packing;
mod piece;
mod pile;
mod shedding;
mod stack;
mod table;
mod waiting;

pub use piece::Piece;
pub use table::{AddError, FlatRows};
