//! Why a text is no plan, and where.

ghost use Rattle.std.specs.Prelude.{◌≡◌};
ghost use Rattle.flow_plan.specs.Places.{fault_of, key_name};
ghost use Rattle.flow_plan.specs.declared.error.PlanTextError.TheVariants.{OutOfMemory};

use crate::fault::PlanTextFault;
use flow_table::PlanFault;
use std::alloc::{AllocError, AllocFailed};
use toml::de;

/// A key of a plan.
#[derive(Clone, Copy, Debug, PartialEq, Eq)]
pub enum PlanKey {
    /// The length of an interval.
    IntervalMs,
    /// How a flow is shared out.
    Method,
    /// The most intervals that a flow may cover.
    MaxSpread,
    /// The elements that rows are distinguished by.
    Keys,
    /// The elements that are added up.
    Counters,
    /// Which elements say when a flow starts and ends.
    Times,
    /// What becomes of totals.
    Totals,
}

impl PlanKey {
    /// The key as it stands in a plan.
    pub fn name(self) -> &'static str
        ensures { result.now ≡ key_name self }
    {
        match self {
            PlanKey::IntervalMs => "interval_ms",
            PlanKey::Method => "method",
            PlanKey::MaxSpread => "max_spread",
            PlanKey::Keys => "keys",
            PlanKey::Counters => "counters",
            PlanKey::Times => "times",
            PlanKey::Totals => "totals",
        }
    }
}

/// What makes no plan of the values of a document.
#[derive(Debug, Drop)]
pub enum PlanPlace {
    /// The value of this key is out of its range.
    Value { key: PlanKey },
    /// This key has so many elements.
    Count { key: PlanKey, count: usize },
    /// This text of this key: the first that has the fault, as it stands in the document.
    Text { key: PlanKey, text: String },
}

/// Why octets are no plan, and where: a fault with the line or the key that it is about. Lines are
/// counted from 1.
#[derive(Debug, Drop)]
pub enum PlanTextError {
    /// The octets are UTF-8 up to some place in this line, and no further.
    NotUtf8 {
        line: usize,
    },
    /// The text is no TOML document. The parser's error begins in this line, at this column, which counts
    /// characters from 1, and this is its message.
    NotToml {
        error: de::Error,
        line: usize,
        column: usize,
        message: String,
    },
    /// The document has this key, which plans don't have.
    UnknownField {
        key: String,
    },
    /// This key, which each plan has, is missing.
    Missing {
        key: PlanKey,
    },
    /// The value of this key is of another type or out of its range.
    WrongKind {
        key: PlanKey,
    },
    /// This text of this key names no element.
    UnknownElement {
        key: PlanKey,
        text: String,
    },
    /// The values make no plan, because of what stands there.
    Plan {
        fault: PlanFault,
        place: PlanPlace,
    },
    /// An allocation was refused.
    OutOfMemory,
}

impl PlanTextError {
    /// The fault, without its place.
    pub fn fault(&self) -> PlanTextFault
        ensures { result ≡ fault_of self.now }
    {
        match self {
            PlanTextError::NotUtf8 { .. } | PlanTextError::NotToml { .. } => PlanTextFault::NotToml,
            PlanTextError::UnknownField { .. } => PlanTextFault::UnknownField,
            PlanTextError::Missing { .. } => PlanTextFault::Missing,
            PlanTextError::WrongKind { .. } => PlanTextFault::WrongKind,
            PlanTextError::UnknownElement { .. } => PlanTextFault::UnknownElement,
            PlanTextError::Plan { fault, .. } => PlanTextFault::Plan(*fault),
            PlanTextError::OutOfMemory => PlanTextFault::OutOfMemory,
        }
    }
}

impl From<AllocError> for PlanTextError {
    ghost from_gives = { λ _ e. e ≡ OutOfMemory };

    fn from(_e: AllocError) -> PlanTextError {
        PlanTextError::OutOfMemory
    }
}

impl<T: Drop> From<AllocFailed<T>> for PlanTextError {
    ghost from_gives = { λ _ e. e ≡ OutOfMemory };

    fn from(_e: AllocFailed<T>) -> PlanTextError {
        PlanTextError::OutOfMemory
    }
}
