//! Why the system did not give or take something.

ghost use Rattle.std.specs.Prelude.{◌≡◌};
ghost use Rattle.std.specs.IoError.{error_kind};
ghost use Rattle.report_writing.specs.Reasons.{reason_of, words_of};

use std::io::{self, ErrorKind};

/// Why the system did not give or take something.
#[derive(Clone, Copy, Debug, PartialEq, Eq)]
pub enum Reason {
    /// There is no file, or no folder for it, of this name.
    NoSuchFile,
    /// The user has no permission.
    NoPermission,
    /// It is a folder and no file.
    IsFolder,
    /// Nothing can have this name or this address.
    NotValid,
    /// Another program listens on the address.
    InUse,
    /// The machine doesn't have the address.
    NoSuchAddress,
    /// The peer reset the connection.
    Reset,
    /// Nothing was sent for as long as a read may wait.
    Silent,
    /// The disk is full, or the user's share of it.
    NoSpace,
    /// The other end of the pipe or of the connection is closed.
    NoReader,
    /// Memory was refused.
    OutOfMemory,
    /// The system gave another reason.
    Other,
}

impl Reason {
    /// The reason that an error of the system gives.
    pub fn of(error: &io::Error) -> Self
        ensures { result ≡ reason_of (error_kind error.now) }
    {
        Reason::by_kind(error.kind())
    }

    /// The reason that a kind of error is.
    pub fn by_kind(kind: ErrorKind) -> Self
        ensures { result ≡ reason_of kind }
    {
        match kind {
            ErrorKind::NotFound | ErrorKind::NotADirectory => Reason::NoSuchFile,
            ErrorKind::PermissionDenied => Reason::NoPermission,
            ErrorKind::IsADirectory => Reason::IsFolder,
            ErrorKind::InvalidInput | ErrorKind::InvalidFilename => Reason::NotValid,
            ErrorKind::AddrInUse => Reason::InUse,
            ErrorKind::AddrNotAvailable => Reason::NoSuchAddress,
            ErrorKind::ConnectionReset | ErrorKind::ConnectionAborted => Reason::Reset,
            ErrorKind::TimedOut | ErrorKind::WouldBlock => Reason::Silent,
            ErrorKind::StorageFull | ErrorKind::QuotaExceeded => Reason::NoSpace,
            ErrorKind::BrokenPipe => Reason::NoReader,
            ErrorKind::OutOfMemory => Reason::OutOfMemory,
            _ => Reason::Other,
        }
    }

    /// The words for it.
    pub fn words(self) -> &'static str
        ensures { result.now ≡ words_of self }
    {
        match self {
            Reason::NoSuchFile => "no such file",
            Reason::NoPermission => "no permission",
            Reason::IsFolder => "it is a folder",
            Reason::NotValid => "not a valid name or address",
            Reason::InUse => "the address is in use",
            Reason::NoSuchAddress => "no such address on this machine",
            Reason::Reset => "the connection was reset",
            Reason::Silent => "nothing came in time",
            Reason::NoSpace => "no space is left",
            Reason::NoReader => "nobody reads it any more",
            Reason::OutOfMemory => "out of memory",
            Reason::Other => "the system refused it",
        }
    }
}
