//! The maps of a plan, and what receipts say of their files.
#![tactic(auto)]

mod maps;

pub use maps::{MapsOfPlan, maps_with};
