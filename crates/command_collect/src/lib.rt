//! The commands that collect: what is written is the text of what was collected. With a receipt, which says what the table was
//! made of.
#![tactic(auto)]

mod cells;
mod collect_fault;
mod commands;
mod early;
mod ending;
mod engine;
mod exporters;
mod gathered;
mod job;
mod large;
mod limits;
mod receipts;
mod table;

pub use collect_fault::write_collect_fault;
pub use commands::files::{run_files, run_files_with};
pub use commands::tcp::{run_tcp, run_tcp_with};
pub use early::refused_early;
pub use ending::{leaves_nothing_out, status_of, tell};
pub use engine::Engine;
pub use gathered::Gathered;
pub use job::{CollectJob, Connections};
pub use large::{noted_counters, write_failure};
pub use limits::write_limit;
pub use receipts::{
    Ended, Hindrance, MadeWith, ReceiptFault, ReceiptPlace, Receipted, Remade, RemakeFault,
    RunFault, SystemPlace, TextDigest, WrittenTable, export_hashed, put_text, remake,
    run_files_receipted, run_receipted, run_tcp_receipted, table_of, write_run_fault,
};
pub use table::{collect_job, run, run_with};
