//! The calls of collectd's commands, and what they are given.
#![tactic(auto)]

pub use command_collect::{
    CollectJob, Connections, Engine, run, run_files, run_files_with, run_tcp, run_tcp_with,
    run_with, write_collect_fault, write_limit,
};
pub use command_dump::{DumpJob, run_dump, run_dump_with, write_dump_fault};
pub use command_merge::{MergeJob, run_merge_with};
pub use input_files::ReadText;
pub use input_sources::{
    Accepted, FileInTurn, FilesInTurn, Listener, LoadedPlan, OpenSource, Opened, SystemFiles,
    SystemListener, WithReason, load_plan, write_plan_fault,
};
pub use ipfix_dump::{DumpFault, Form, dump};
pub use ipfix_session::MessageCounter;
pub use output_tables::{Output, write_export_fault};
pub use report_sessions::{write_reports, write_tally};
pub use report_writing::{
    CheckedWriter, Origin, Reason, Status, Verbosity, write_not_had, write_not_had_because,
};
