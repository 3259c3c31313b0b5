//! Periods of a folder of recordings: which folder is whose, when a period is finished, when its table is due, and when its
//! recordings may be removed.
#![tactic(auto)]

mod due_tables;
mod finished_period;
mod period_files;
mod period_folders;
mod removable;

pub use due_tables::{TableState, table_state};
pub use finished_period::{PeriodRule, PeriodState, period_state};
pub use period_files::finished_files;
pub use period_folders::read_period_at;
pub use removable::{is_old, may_remove};
