//! The command `tables`: the tables of the periods of a folder of recordings.
#![tactic(auto)]

mod days;
mod making;
mod opening;
mod plans;
mod removing;
mod texts;

pub use days::periods_begin_in_one_day;
pub use making::tables;
