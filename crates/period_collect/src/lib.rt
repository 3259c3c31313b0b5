//! The table of the files of a period, and its receipt, as `files --direct --receipt` makes them.
#![tactic(auto)]

mod exporters;
mod kept_receipt;
mod large_files;
mod made_again;
mod maker;
mod parting;
mod paths;
mod period_job;
mod places;
mod table_maker;
mod telling;

pub use kept_receipt::KeptReceipt;
pub use maker::{MadeTable, TableMaker};
pub use period_job::PeriodJob;
pub use table_maker::make_table;
