//! Why no text was made of a table.

ghost use Rattle.std.specs.Prelude.{◌≡◌};

use flow_export::ExportFault;
use flow_merge::MergeFault;
use report_writing::Reason;

/// Why no text was made of a table.
#[derive(Clone, Copy, Debug, PartialEq, Eq)]
pub enum TextFault {
    OutOfMemory,
    /// The table can't be read, for the reason.
    NotRead(Reason),
    /// Its receipt is of another plan, or of other files of elements or of maps.
    OtherPlan,
    /// It is another than its receipt says.
    NotItsTable,
    /// It is no table of the plan.
    NotMerged(MergeFault),
    /// Its text can't be written.
    NotWritten(ExportFault),
}
