//! Why a text is no plan.

ghost use Rattle.std.specs.Prelude.{◌≡◌};
ghost use Rattle.flow_plan.specs.Faults.{number_of, name_of};
ghost use Rattle.flow_plan.specs.declared.fault.PlanTextFault.TheVariants.{OutOfMemory};

use flow_table::PlanFault;
use std::alloc::{AllocError, AllocFailed};
use thiserror::Error;

/// Why a text is no plan. [`read_plan`](crate::read_plan) says which of several faults is answered.
#[derive(Clone, Copy, Debug, PartialEq, Eq, Error)]
pub enum PlanTextFault {
    /// The text is no TOML document.
    #[error("the plan is no TOML document")]
    NotToml,
    /// The document has a key that plans don't have.
    #[error("the plan has an unknown key")]
    UnknownField,
    /// A key that each plan has is missing.
    #[error("the plan lacks a key")]
    Missing,
    /// The value of a key is of another type or out of its range.
    #[error("a value of the plan is of the wrong kind")]
    WrongKind,
    /// A text of `keys` or `counters` names no element.
    #[error("the plan names an unknown element")]
    UnknownElement,
    /// The values make no plan.
    #[error("{0}")]
    Plan(PlanFault),
    /// An allocation was refused.
    #[error("out of memory")]
    OutOfMemory,
}

impl PlanTextFault {
    /// The number that reports give for the fault.
    pub fn number(&self) -> u8
        ensures { result ≡ number_of self.now }
    {
        match self {
            PlanTextFault::NotToml => 1,
            PlanTextFault::UnknownField => 2,
            PlanTextFault::Missing => 3,
            PlanTextFault::WrongKind => 4,
            PlanTextFault::UnknownElement => 5,
            PlanTextFault::Plan(_) => 6,
            PlanTextFault::OutOfMemory => 7,
        }
    }

    /// The name that reports give for the fault.
    pub fn name(&self) -> &'static str
        ensures { result.now ≡ name_of self.now }
    {
        match self {
            PlanTextFault::NotToml => "NotToml",
            PlanTextFault::UnknownField => "UnknownField",
            PlanTextFault::Missing => "Missing",
            PlanTextFault::WrongKind => "WrongKind",
            PlanTextFault::UnknownElement => "UnknownElement",
            PlanTextFault::Plan(_) => "Plan",
            PlanTextFault::OutOfMemory => "OutOfMemory",
        }
    }
}

impl From<AllocError> for PlanTextFault {
    ghost from_gives = { λ _ e. e ≡ OutOfMemory };

    fn from(_e: AllocError) -> PlanTextFault {
        PlanTextFault::OutOfMemory
    }
}

impl<T: Drop> From<AllocFailed<T>> for PlanTextFault {
    ghost from_gives = { λ _ e. e ≡ OutOfMemory };

    fn from(_e: AllocFailed<T>) -> PlanTextFault {
        PlanTextFault::OutOfMemory
    }
}
