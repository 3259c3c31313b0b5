//! Why a text is no plan with a filter, and where.

ghost use Rattle.std.specs.Prelude.{◌≡◌};
ghost use Rattle.flow_plan_fields.specs.Wheres.{side_key as key_of_side};
ghost use Rattle.flow_plan_fields.specs.FilteredErrors.{name_of, number_of};
ghost use Rattle.flow_plan_fields.specs.declared.place.WhereFault.TheVariants.{OutOfMemory};

use flow_filter::{Condition, Side};
use flow_plan::PlanTextError;
use std::alloc::{AllocError, AllocFailed};

/// The conditions of a `[[where]]`: one of each side that it has.
#[derive(Debug, Drop)]
pub struct Sides {
    /// That of `in`.
    pub one_of: Option<Condition>,
    /// That of `not_in`.
    pub none_of: Option<Condition>,
}

/// What makes no conditions of a `[[where]]`: the first of these that applies, and of a side's faults that of `in`
/// before that of `not_in`.
#[derive(Debug, Drop)]
pub enum WhereFault {
    /// It is no table.
    NoTable,
    /// It has this key, which conditions don't have: the first in the order of octets.
    UnknownKey { key: String },
    /// Its `element` is missing, or is no text.
    NoElement,
    /// Its `element` names none.
    UnknownElement { text: String },
    /// It has neither `in` nor `not_in`.
    NoSide,
    /// The value of this side is no array of texts alone.
    NoTexts { side: Side },
    /// The values of its element are no unsigned numbers, and no addresses of IPv4 or IPv6.
    Kind,
    /// This side has so many texts: none, or more than [`MAX_TEXTS`](flow_filter::MAX_TEXTS).
    Count { side: Side, count: usize },
    /// This text of this side says no values of the element: the first such text.
    Text { side: Side, text: String },
    /// An allocation was refused.
    OutOfMemory,
}

impl From<AllocError> for WhereFault {
    ghost from_gives = { λ _ e. e ≡ OutOfMemory };

    fn from(_e: AllocError) -> WhereFault {
        WhereFault::OutOfMemory
    }
}

impl<T: Drop> From<AllocFailed<T>> for WhereFault {
    ghost from_gives = { λ _ e. e ≡ OutOfMemory };

    fn from(_e: AllocFailed<T>) -> WhereFault {
        WhereFault::OutOfMemory
    }
}

/// Why octets are no plan with a filter, and where.
#[derive(Debug, Drop)]
pub enum FilteredPlanError {
    /// They are no plan, conditions aside; or memory ran out.
    Plan(PlanTextError),
    /// The value of `where` is no array.
    NoConditions,
    /// The `[[where]]` that has this place in the text, counted from 1, makes no conditions.
    Where { place: usize, fault: WhereFault },
    /// The value of `sampling` is none of the words that there are.
    NoSampling,
}

impl From<AllocError> for FilteredPlanError {
    ghost use Rattle.flow_plan.specs.declared.error.PlanTextError.TheVariants as texts;
    ghost use Rattle.flow_plan_fields.specs.declared.place.FilteredPlanError.TheVariants.{Plan};

    ghost from_gives = { λ _ e. e ≡ Plan texts.OutOfMemory };

    fn from(_e: AllocError) -> FilteredPlanError {
        FilteredPlanError::Plan(PlanTextError::OutOfMemory)
    }
}

impl FilteredPlanError {
    /// The number that reports give for the fault.
    pub fn number(&self) -> u8
        ensures { result ≡ number_of self.now }
    {
        match self {
            FilteredPlanError::Plan(error) => error.fault().number(),
            FilteredPlanError::NoConditions | FilteredPlanError::Where { .. } => 8,
            FilteredPlanError::NoSampling => 10,
        }
    }

    /// The name that reports give for the fault.
    pub fn name(&self) -> &'static str
        ensures { result.now ≡ name_of self.now }
    {
        match self {
            FilteredPlanError::Plan(error) => error.fault().name(),
            FilteredPlanError::NoConditions | FilteredPlanError::Where { .. } => "Filter",
            FilteredPlanError::NoSampling => "Sampling",
        }
    }
}

/// The key of a side in a plan.
pub fn side_key(side: Side) -> &'static str
    ensures { result.now ≡ key_of_side side }
{
    match side {
        Side::In => "in",
        Side::NotIn => "not_in",
    }
}
