//! Why a dump could not be written.

ghost use Rattle.std.specs.Prelude.{◌≡◌};
ghost use Rattle.ipfix_dump.specs.Faults.{number_of, name_of};
ghost use Rattle.ipfix_dump.specs.declared.fault.DumpFault.TheVariants.{OutOfMemory, WriteFailed};

use std::alloc::AllocError;
use std::io;
use thiserror::Error;

/// Why a dump could not be written.
#[derive(Clone, Copy, Debug, PartialEq, Eq, Error)]
pub enum DumpFault {
    /// There was no memory for a line.
    #[error("out of memory")]
    OutOfMemory,
    /// The writer failed. How much of the lines went out is open.
    #[error("writing failed")]
    WriteFailed,
}

impl DumpFault {
    /// The number that the program prints.
    pub fn number(&self) -> u8
        ensures { result ≡ number_of self.now }
    {
        match self {
            DumpFault::OutOfMemory => 1,
            DumpFault::WriteFailed => 2,
        }
    }

    /// The name that the program prints.
    pub fn name(&self) -> &'static str
        ensures { result.now ≡ name_of self.now }
    {
        match self {
            DumpFault::OutOfMemory => "OutOfMemory",
            DumpFault::WriteFailed => "WriteFailed",
        }
    }
}

impl From<AllocError> for DumpFault {
    ghost from_gives = { λ _ e. e ≡ OutOfMemory };

    fn from(_error: AllocError) -> DumpFault {
        DumpFault::OutOfMemory
    }
}

impl From<io::Error> for DumpFault {
    ghost from_gives = { λ _ e. e ≡ WriteFailed };

    fn from(_error: io::Error) -> DumpFault {
        DumpFault::WriteFailed
    }
}
