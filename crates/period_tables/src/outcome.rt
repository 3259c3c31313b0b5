//! What became of the table of a period.

use report_writing::{Reason, Status};

/// What became of the table of a period in a round.
#[derive(Debug, Drop)]
pub enum Outcome {
    /// The period, or its grace, isn't over.
    NotOver,
    /// The file of this name, of the period or of one before it, isn't finished.
    HeldUp(String),
    /// The table is of exactly the files that there are.
    UpToDate,
    /// The file of this path, of which the table was made, is gone.
    FileGone(String),
    /// The table was made. It says whether a session has a fault.
    Made(bool),
    /// The folder of the period, or the receipt of its table, can't be read.
    NotRead(Reason),
    /// The table couldn't be made.
    NotMade(Status),
    /// The table or its receipt couldn't be put.
    NotPut(Reason),
}
