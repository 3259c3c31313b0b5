//! Why a data record is no row's.

ghost use Rattle.std.specs.Prelude.{◌≡◌};
ghost use Rattle.flow_merge.specs.RowFaults.{number_of, name_of};
ghost use Rattle.flow_merge.specs.declared.row_fault.RowFault.TheVariants.{OutOfMemory};

use std::alloc::{AllocError, AllocFailed};
use thiserror::Error;

/// Why a data record was not read as a row of a plan's exports: the first fault that fits it, in this
/// order.
#[derive(Clone, Copy, Debug, PartialEq, Eq, Error)]
pub enum RowFault {
    /// An allocation was refused.
    #[error("out of memory")]
    OutOfMemory,
    /// It isn't of the template of exports: domain 0, template 256, no options record.
    #[error("the record is of another template than exports have")]
    Template,
    /// Its fields have other elements or other lengths than the plan's exports.
    #[error("the record has other fields than exports under the plan")]
    Fields,
    /// Its start and end aren't the first and the last millisecond of an interval of the plan that
    /// begins before 2^50 ms.
    #[error("the record's times are those of no interval of the plan")]
    Interval,
    /// An address has bits after the prefix of its key.
    #[error("an address of the record has bits behind its key's prefix")]
    Prefix,
    /// Its number of flows is 0.
    #[error("the record has no flows")]
    Flows,
    /// Its start and end aren't within one of the intervals that rows are put in. It comes in place of `Interval`.
    #[error("the record's times cross a border between intervals")]
    Border,
}

impl RowFault {
    /// The number that reports give for the fault.
    pub fn number(&self) -> u8
        ensures { result ≡ number_of self.now }
    {
        match self {
            RowFault::OutOfMemory => 1,
            RowFault::Template => 2,
            RowFault::Fields => 3,
            RowFault::Interval => 4,
            RowFault::Prefix => 5,
            RowFault::Flows => 6,
            RowFault::Border => 7,
        }
    }

    /// The name that reports give for the fault.
    pub fn name(&self) -> &'static str
        ensures { result.now ≡ name_of self.now }
    {
        match self {
            RowFault::OutOfMemory => "OutOfMemory",
            RowFault::Template => "Template",
            RowFault::Fields => "Fields",
            RowFault::Interval => "Interval",
            RowFault::Prefix => "Prefix",
            RowFault::Flows => "Flows",
            RowFault::Border => "Border",
        }
    }
}

impl From<AllocError> for RowFault {
    ghost from_gives = { λ _ e. e ≡ OutOfMemory };

    fn from(_error: AllocError) -> RowFault {
        RowFault::OutOfMemory
    }
}

impl<T: Drop> From<AllocFailed<T>> for RowFault {
    ghost from_gives = { λ _ e. e ≡ OutOfMemory };

    fn from(_error: AllocFailed<T>) -> RowFault {
        RowFault::OutOfMemory
    }
}
