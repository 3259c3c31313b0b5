//! Collecting with a receipt, which says what the table was made of.

mod collecting;
mod exporters;
mod fault;
mod files;
mod hashed_table;
mod hashing;
mod inputs;
mod made_run;
mod making;
mod place;
mod remaking;
mod run;
mod system_place;
mod table_part;
mod tcp;

pub use fault::{ReceiptFault, RunFault, write_run_fault};
pub use files::run_files_receipted;
pub use hashed_table::{TextDigest, WrittenTable, export_hashed};
pub use making::MadeWith;
pub use place::ReceiptPlace;
pub use remaking::{Remade, RemakeFault, remake};
pub use run::{Ended, Hindrance, Receipted, put_text, run_receipted};
pub use system_place::SystemPlace;
pub use table_part::table_of;
pub use tcp::run_tcp_receipted;
