//! Why a part isn't merged.

ghost use Rattle.std.specs.Prelude.{◌≡◌};
ghost use Rattle.receipt_merging.specs.PartFaults.{name_of, number_of};

use thiserror::Error;

/// Why a part isn't merged by its receipt.
#[derive(Clone, Copy, Debug, PartialEq, Eq, Error)]
pub enum PartFault {
    /// Its receipt can't be read, or is none.
    #[error("it has no receipt")]
    Receipt,
    /// Its table isn't the one of its receipt.
    #[error("its table is not the one of its receipt")]
    NotItsTable,
    /// It was made under another plan than the merged table is.
    #[error("it was made under another plan")]
    OtherPlan,
    /// It has an input that is in the merged table already.
    #[error("an input comes twice")]
    InputTwice,
    /// Something was lost or passed over when it was made.
    #[error("it is not complete")]
    Incomplete,
}

impl PartFault {
    /// The number that reports give for the fault, after those of the faults of a merge without receipts.
    pub fn number(&self) -> u8
        ensures { result ≡ number_of self.now }
    {
        match self {
            PartFault::Receipt => 7,
            PartFault::NotItsTable => 8,
            PartFault::OtherPlan => 9,
            PartFault::InputTwice => 10,
            PartFault::Incomplete => 11,
        }
    }

    /// The name that reports give for the fault.
    pub fn name(&self) -> &'static str
        ensures { result.now ≡ name_of self.now }
    {
        match self {
            PartFault::Receipt => "Receipt",
            PartFault::NotItsTable => "NotItsTable",
            PartFault::OtherPlan => "OtherPlan",
            PartFault::InputTwice => "InputTwice",
            PartFault::Incomplete => "Incomplete",
        }
    }
}
