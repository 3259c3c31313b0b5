//! What is known of a session wherever its files are.

ghost use Rattle.std.specs.Prelude.{◌≡◌, Some, slice_get};
ghost use Rattle.std.specs.String.{string_bytes};
ghost use Rattle.recording_folder.specs.Failures.{reasons};

use report_writing::Reason;
use std::sync::atomic::AtomicU64;
use std::sync::atomic::Ordering::SeqCst;

/// What stands for no reason.
const NONE: u64 = 12;

/// A session, as its files know it in whichever thread they are: its name, and why one of them could not
/// be finished apart from it, if that is so.
#[derive(Drop)]
pub(crate) struct FiledSession {
    name: String,
    failure: AtomicU64,
}

impl FiledSession {
    pub(crate) fn new(name: String) -> Self
        ensures { result.name ≡ name }
    {
        FiledSession {
            name,
            failure: AtomicU64::new(NONE),
        }
    }

    pub(crate) fn name(&self) -> &str
        ensures { result.now ≡ string_bytes self.now.name }
    {
        self.name.as_str()
    }

    /// Why a file could not be finished, if that is so; of several the last.
    pub(crate) fn failure(&self) -> Option<Reason> {
        reason_of(self.failure.load(SeqCst))
    }

    /// A file could not be finished, for this reason.
    pub(crate) fn fail(&self, reason: Reason) {
        self.failure.store(number_of(reason), SeqCst);
    }
}

// The number of a reason.
fn number_of(reason: Reason) -> u64
    ensures { slice_get reasons result ≡ Some reason }
{
    match reason {
        Reason::NoSuchFile => 0,
        Reason::NoPermission => 1,
        Reason::IsFolder => 2,
        Reason::NotValid => 3,
        Reason::InUse => 4,
        Reason::NoSuchAddress => 5,
        Reason::Reset => 6,
        Reason::Silent => 7,
        Reason::NoSpace => 8,
        Reason::NoReader => 9,
        Reason::OutOfMemory => 10,
        Reason::Other => 11,
    }
}

// The reason of a number, if it is that of one.
fn reason_of(number: u64) -> Option<Reason>
    ensures { result ≡ slice_get reasons number }
{
    match number {
        0 => Some(Reason::NoSuchFile),
        1 => Some(Reason::NoPermission),
        2 => Some(Reason::IsFolder),
        3 => Some(Reason::NotValid),
        4 => Some(Reason::InUse),
        5 => Some(Reason::NoSuchAddress),
        6 => Some(Reason::Reset),
        7 => Some(Reason::Silent),
        8 => Some(Reason::NoSpace),
        9 => Some(Reason::NoReader),
        10 => Some(Reason::OutOfMemory),
        11 => Some(Reason::Other),
        _ => None,
    }
}
