//! Why there is no table.

ghost use Rattle.std.specs.Prelude.{◌≡◌};
ghost use Rattle.flow_table.specs.TableFaults.{number_of, name_of};
ghost use Rattle.flow_table.specs.declared.table_fault.TableFault.TheVariants.{OutOfMemory};

use std::alloc::{AllocError, AllocFailed};
use thiserror::Error;

/// Why data records were not aggregated.
#[derive(Clone, Copy, Debug, PartialEq, Eq, Error)]
pub enum TableFault {
    /// An allocation was refused.
    #[error("out of memory")]
    OutOfMemory,
    /// A sum, a number of flows or a count of the tally would be 2^64 or more.
    #[error("a sum is too large")]
    SumTooLarge,
}

impl TableFault {
    /// The number that reports give for the fault.
    pub fn number(&self) -> u8
        ensures { result ≡ number_of self.now }
    {
        match self {
            TableFault::OutOfMemory => 1,
            TableFault::SumTooLarge => 2,
        }
    }

    /// The name that reports give for the fault.
    pub fn name(&self) -> &'static str
        ensures { result.now ≡ name_of self.now }
    {
        match self {
            TableFault::OutOfMemory => "OutOfMemory",
            TableFault::SumTooLarge => "SumTooLarge",
        }
    }
}

impl From<AllocError> for TableFault {
    ghost from_gives = { λ _ e. e ≡ OutOfMemory };

    fn from(_e: AllocError) -> TableFault {
        TableFault::OutOfMemory
    }
}

impl<T: Drop> From<AllocFailed<T>> for TableFault {
    ghost from_gives = { λ _ e. e ≡ OutOfMemory };

    fn from(_e: AllocFailed<T>) -> TableFault {
        TableFault::OutOfMemory
    }
}
