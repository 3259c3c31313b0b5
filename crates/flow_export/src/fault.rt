//! Why a table was not exported.

ghost use Rattle.std.specs.Prelude.{◌≡◌};
ghost use Rattle.flow_export.specs.Faults.{number_of, name_of};
ghost use Rattle.flow_export.specs.declared.fault.ExportFault.TheVariants.{OutOfMemory, WriteFailed};

use std::alloc::AllocError;
use std::io;
use thiserror::Error;

/// Why a table was not exported.
#[derive(Clone, Copy, Debug, PartialEq, Eq, Error)]
pub enum ExportFault {
    /// An allocation was refused.
    #[error("out of memory")]
    OutOfMemory,
    /// The writer failed. How much of the export went out is open.
    #[error("writing failed")]
    WriteFailed,
    /// The table has 2^32 rows or more: the sequence numbers of IPFIX don't count so far (RFC 7011,
    /// section 3.1).
    #[error("the table has too many rows")]
    TooManyRows,
}

impl ExportFault {
    /// The number that the program prints.
    pub fn number(&self) -> u8
        ensures { result ≡ number_of self.now }
    {
        match self {
            ExportFault::OutOfMemory => 1,
            ExportFault::WriteFailed => 2,
            ExportFault::TooManyRows => 3,
        }
    }

    /// The name that the program prints.
    pub fn name(&self) -> &'static str
        ensures { result.now ≡ name_of self.now }
    {
        match self {
            ExportFault::OutOfMemory => "OutOfMemory",
            ExportFault::WriteFailed => "WriteFailed",
            ExportFault::TooManyRows => "TooManyRows",
        }
    }
}

impl From<AllocError> for ExportFault {
    ghost from_gives = { λ _ e. e ≡ OutOfMemory };

    fn from(_error: AllocError) -> ExportFault {
        ExportFault::OutOfMemory
    }
}

impl From<io::Error> for ExportFault {
    ghost from_gives = { λ _ e. e ≡ WriteFailed };

    fn from(_error: io::Error) -> ExportFault {
        ExportFault::WriteFailed
    }
}
