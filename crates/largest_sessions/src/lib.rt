//! Which sessions are left out of a table, so that each of its numbers has a place in 64 bits.
#![tactic(auto)]

mod cursor;
mod leaving;
mod places;
mod walk;

pub use leaving::left_out;
