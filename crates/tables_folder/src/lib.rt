//! Folders of recordings and of tables on the disk, as the periods of one become the tables of the other.
#![tactic(auto)]

mod found_periods;
mod plan_names;
mod plan_tables;
mod receipt_files;
mod recordings_folder;
mod removing;

pub use plan_names::{TablesOf, plan_name};
pub use plan_tables::{PlanFault, PlanTables};
pub use receipt_files::files_in_receipt;
pub use recordings_folder::{RecordingsFolder, days_in, periods_in};
pub use removing::{clear_removed, remove_period};
