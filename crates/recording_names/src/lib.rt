//! The names in a folder of recordings: of periods, of sessions and of their files.
#![tactic(auto)]

mod decimals;
mod finished_names;
pub mod laws;
mod period;
mod period_names;
mod session_names;
mod transport;
mod unfinished_names;

pub use finished_names::{FinishedName, read_finished_name};
pub use period::{CALENDAR_END, Period, period_of};
pub use period_names::period_name;
pub use session_names::{SessionName, address_name, read_session_name, session_name};
pub use transport::Transport;
pub use unfinished_names::{UnfinishedName, read_unfinished_name, unfinished_name};
