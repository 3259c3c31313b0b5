//! Why files were not merged.

ghost use Rattle.std.specs.Prelude.{◌≡◌};
ghost use Rattle.report_writing.specs.Statuses.{number_of};
ghost use Rattle.command_merge.specs.MergeLines.{status_of, unread_reason};

use flow_merge::MergeFault;
use report_sessions::read_reason;
use report_writing::{Reason, Status};
use std::io::ErrorKind;

/// Why a file was not merged.
#[derive(Clone, Copy)]
pub struct FileFault {
    pub fault: MergeFault,
    /// Why it could not be read on, if that is its fault, and is known.
    pub reason: Option<Reason>,
}

impl FileFault {
    /// A fault, and what the system answered to the read of the file that failed, if one did and it is known.
    pub fn of(fault: MergeFault, failure: Option<ErrorKind>) -> Self
        ensures fault { result.fault ≡ fault }
        ensures reason { result.reason ≡ unread_reason fault failure }
    {
        let reason = match fault {
            MergeFault::Session(fault) => read_reason(Some(fault), failure),
            _ => None,
        };
        FileFault { fault, reason }
    }
}

/// Why files were not merged.
#[derive(Clone, Copy)]
pub enum NotMerged<'a> {
    /// A path can't be opened.
    NotOpened {
        path: &'a str,
        reason: Reason,
    },
    /// The file of this number, counted from 1, has a fault.
    File {
        number: usize,
        path: &'a str,
        fault: FileFault,
    },
    /// A fault that is no file's.
    Whole(MergeFault),
}

impl NotMerged<'_> {
    /// How the run ends.
    pub fn status(&self) -> Status
        ensures { result ≡ status_of self.now }
    {
        match self {
            NotMerged::NotOpened { .. } => Status::NotOpened,
            NotMerged::File { .. } | NotMerged::Whole(_) => Status::Failed,
        }
    }
}
