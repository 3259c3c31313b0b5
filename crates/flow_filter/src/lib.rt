//! Which records are counted: conditions on the values of their fields.
#![tactic(auto)]

mod condition;
mod fault;
mod filter;
pub mod laws;
mod numbers;
mod sink;
mod value;
mod value_range;

pub use condition::{Condition, MAX_TEXTS, Side};
pub use fault::FilterFault;
pub use filter::Filter;
pub use sink::FilterSink;
pub use value::{Value, is_comparable, value_in};
pub use value_range::ValueRange;
