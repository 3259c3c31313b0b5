//! What a run of merging by receipts is to do.

use command_merge::MergeJob;
use receipt_merging::Allowed;
use report_writing::Status;
use table_parts::{PartFiles, PlanAtHand};
use table_receipts::MergedInto;

/// What a run of merging is to do with tables and their receipts.
#[derive(Clone, Copy)]
pub struct PartsJob<'a> {
    /// What it is to do with the tables.
    pub merge: MergeJob<'a>,
    /// The plan, as a receipt tells one.
    pub plan: PlanAtHand<'a>,
    /// The parts, in the order in which they are merged.
    pub parts: &'a [PartFiles<'a>],
    /// What they are merged for all that.
    pub allowed: Allowed,
    /// Into what the rows are merged, which the receipt of the merged table tells; without it they have the plan's intervals.
    pub into: Option<&'a MergedInto>,
    /// The version of collectd, as `1.2.3`, which the receipt of the merged table tells.
    pub collectd: &'a str,
}

/// Where the merged table is written, and where its receipt is put, if there is to be one.
#[derive(Drop)]
pub struct MergedTo<W, P> {
    pub out: W,
    pub place: Option<P>,
}

/// How a run ended, and where it wrote.
#[derive(Drop)]
pub struct MergedEnd<W, P> {
    pub status: Status,
    pub to: MergedTo<W, P>,
}
