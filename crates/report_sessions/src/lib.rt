//! The lines of sessions on standard error: what they lost, what wasn't counted, how they ended; and whether a run
//! is spotless.
#![tactic(auto)]

mod balances;
mod endings;
mod first_elements;
pub mod laws;
mod missing;
mod read_failures;
mod reports;
mod spotless;
mod tally;
mod told_reports;
mod unnamed;

pub use missing::write_missing;
pub use read_failures::{read_reason, write_unread};
pub use reports::write_reports;
pub use spotless::{are_spotless, is_spotless};
pub use tally::{write_tally, write_tally_with};
pub use told_reports::{write_told_reports, write_told_session};
