//! Why parts were not merged.

ghost use Rattle.std.specs.Prelude.{◌≡◌};
ghost use Rattle.command_merge_receipts.specs.Lines.{parts_status_of};

use command_merge::NotMerged;
use receipt_merging::PartFault;
use report_writing::{Reason, Status};
use table_parts::PartFiles;
use table_receipts::InputReceipt;

/// Why parts were not merged. Numbers of files are counted from 1.
#[derive(Drop)]
pub enum NotMergedParts<'a> {
    /// As without receipts.
    NotMerged(NotMerged<'a>),
    /// The receipt of the file of this number can't be had, for the reason; or it is no receipt.
    Receipt(usize, PartFiles<'a>, Option<Reason>),
    /// The file of this number has the fault, which isn't one of these two.
    Part(usize, PartFiles<'a>, PartFault),
    /// The file of this number has the second of two inputs that are the same. They are at these places of these inputs,
    /// counted from 0.
    InputTwice(usize, PartFiles<'a>, Vec<InputReceipt>, usize, usize),
}

impl NotMergedParts<'_> {
    /// How the run ends.
    pub fn status(&self) -> Status
        ensures { result ≡ parts_status_of self.now }
    {
        match self {
            NotMergedParts::NotMerged(not_merged) => not_merged.status(),
            NotMergedParts::Receipt(..)
            | NotMergedParts::Part(..)
            | NotMergedParts::InputTwice(..) => Status::Failed,
        }
    }
}
