//! What a run of merging is to do.

use element_registry::Elements;
use flow_export::Intervals;
use flow_table::Plan;
use output_tables::Output;
use report_writing::Verbosity;

/// What a run of merging is to do with the exports in files.
#[derive(Clone, Copy)]
pub struct MergeJob<'a> {
    /// These name the keys and counters.
    pub elements: &'a Elements,
    /// The keys and counters of each export, and of the table, and the intervals of the exports.
    pub plan: &'a Plan,
    /// When the intervals of the table begin and end.
    pub intervals: Intervals<'a>,
    /// How the table is written.
    pub output: Output,
    /// What is told beside the lines that always stand.
    pub verbosity: Verbosity,
}
