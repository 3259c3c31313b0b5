//! How the tables of days are made.

use crate::texts::TextJob;
use report_writing::Verbosity;

/// How the tables of days or months of a plan are made.
#[derive(Clone, Copy)]
pub struct DayJob<'a> {
    /// How a table is written, which is as IPFIX, and under which plan.
    pub text: TextJob<'a>,
    /// What is told of a merge beside the lines that always stand.
    pub verbosity: Verbosity,
}
