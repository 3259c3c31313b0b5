//! Which elements say the times of flows, and what is told of the times of a session's flows.
#![tactic(auto)]

mod element;
pub mod laws;
mod notes;
mod starts;
mod timed;

pub use element::{TimeElement, other_time, start_element};
pub use notes::{NO_TIMES, TimeNotes, TimeNoting, TimesReport};
pub use starts::{NO_STARTS, StartCounts};
pub use timed::is_timed;
