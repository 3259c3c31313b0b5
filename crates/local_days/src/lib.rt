//! When local days and months begin, by the rules of a time zone, and which a second is in.
#![tactic(auto)]

mod borders;
mod interval_start;
mod laws;
mod local_interval;
mod shown_day;

pub use borders::{LAST_DAY, local_borders};
pub use laws::seconds_are_in_one_interval;
pub use local_interval::LocalInterval;
pub use shown_day::{LAST_SECOND, day_at};
