//! Why exports were not merged.

ghost use Rattle.std.specs.Prelude.{◌≡◌};
ghost use Rattle.flow_merge.specs.MergeFaults.{fault_of_row, number_of, name_of};
ghost use Rattle.flow_merge.specs.declared.merge_fault.MergeFault.TheVariants.{OutOfMemory};

use crate::row_fault::RowFault;
use flow_table::TableFault;
use ipfix_session::SessionFault;
use std::alloc::AllocError;
use thiserror::Error;

/// Why an export was not merged.
#[derive(Clone, Copy, Debug, PartialEq, Eq, Error)]
pub enum MergeFault {
    /// An allocation was refused, outside the session.
    #[error("out of memory")]
    OutOfMemory,
    /// A sum or a number of flows would be 2^64 or more.
    #[error("a sum is too large")]
    SumTooLarge,
    /// The session of the octets ended early.
    #[error("{0}")]
    Session(SessionFault),
    /// The octets have no message, or something in them was read over.
    #[error("no export of a table")]
    NotAnExport,
    /// The sequence numbers say that data records are missing, or come twice.
    #[error("data records are missing")]
    Lost,
    /// A data record is no row under the plan.
    #[error("{0}")]
    Row(RowFault),
    /// The start and end of the row of this number, counted from 1, aren't within one of the intervals that rows are put
    /// in. The count stops at `u64::MAX`.
    #[error("row {0} crosses a border between intervals")]
    Border(u64),
}

impl MergeFault {
    /// The fault of the record of this number in a file, counted from 1.
    pub(crate) fn of_row(fault: RowFault, number: u64) -> MergeFault
        ensures { result ≡ fault_of_row number fault }
    {
        match fault {
            RowFault::OutOfMemory => MergeFault::OutOfMemory,
            RowFault::Border => MergeFault::Border(number),
            fault => MergeFault::Row(fault),
        }
    }

    /// The number that reports give for the fault.
    pub fn number(&self) -> u8
        ensures { result ≡ number_of self.now }
    {
        match self {
            MergeFault::OutOfMemory => 1,
            MergeFault::SumTooLarge => 2,
            MergeFault::Session(_) => 3,
            MergeFault::NotAnExport => 4,
            MergeFault::Lost => 5,
            MergeFault::Row(_) => 6,
            MergeFault::Border(_) => 12,
        }
    }

    /// The name that reports give for the fault.
    pub fn name(&self) -> &'static str
        ensures { result.now ≡ name_of self.now }
    {
        match self {
            MergeFault::OutOfMemory => "OutOfMemory",
            MergeFault::SumTooLarge => "SumTooLarge",
            MergeFault::Session(_) => "Session",
            MergeFault::NotAnExport => "NotAnExport",
            MergeFault::Lost => "Lost",
            MergeFault::Row(_) => "Row",
            MergeFault::Border(_) => "Border",
        }
    }
}

impl From<AllocError> for MergeFault {
    ghost from_gives = { λ _ e. e ≡ OutOfMemory };

    fn from(_error: AllocError) -> MergeFault {
        MergeFault::OutOfMemory
    }
}

impl From<TableFault> for MergeFault {
    ghost use Rattle.flow_merge.specs.MergeFaults.{fault_of_table};

    ghost from_gives = { λ fault e. e ≡ fault_of_table fault };

    fn from(fault: TableFault) -> MergeFault {
        match fault {
            TableFault::OutOfMemory => MergeFault::OutOfMemory,
            TableFault::SumTooLarge => MergeFault::SumTooLarge,
        }
    }
}
