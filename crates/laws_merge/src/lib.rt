//! What merging makes of the exports of tables: `merge`, whose contract has the theorem, and the laws of
//! exports that are read and merged. `flow_merge` has the calls that it stands on.
#![tactic(auto)]

pub mod laws;
mod merges;

pub use merges::merge;
