//! What each command is told by its words, the files that it reads before its input, and where it writes.
#![tactic(auto)]

mod arguments;
mod exporters;
mod folder_line;
mod formats;
mod inputs;
mod jobs;
mod listed_files;
mod listening;
mod part_receipts;
mod plan_maps;
mod progress_output;
mod receipt_place;
mod receipts;
mod refused;
mod timers;
mod zones;

pub use arguments::{
    Arguments, CollectArguments, DumpArguments, ElementsArguments, ExplainArguments,
    FilesArguments, FinishArguments, MergeArguments, RecordArguments, ShowProgress, TableArguments,
    TablesArguments, TcpArguments, VerifyArguments, read_arguments,
};
pub use exporters::{check_exporters, place_exporters};
pub use folder_line::tell_folder;
pub use inputs::{
    Collecting, buffered_output, load_table_plan, prepare_collecting, progress_writer, table_output,
};
pub use jobs::collect_job;
pub use listed_files::{all_paths, check_paths, read_list};
pub use listening::listen_on;
pub use part_receipts::{check_receipts, receipt_paths};
pub use plan_maps::load_plan_maps;
pub use progress_output::ProgressOutput;
pub use receipt_place::{CompareFiles, is_of_part};
pub use receipts::{KnownElements, PlanMade, ReceiptTo, load_known, load_plan_made, merged_place};
pub use refused::{WITH_REASONS, write_refused_output};
pub use zones::{known_zones, merged_into, zone_borders, zone_of_days};
