//! Why a text says nothing of maps.

ghost use Rattle.std.specs.Prelude.{◌≡◌};
ghost use Rattle.flow_plan.specs.declared.error.PlanTextError.TheVariants as texts;
ghost use Rattle.flow_plan_fields.specs.declared.error.PlanMapsError.TheVariants.{Document};

use flow_plan::PlanTextError;
use std::alloc::{AllocError, AllocFailed};

/// What makes no map of a `[[map]]`: the first of these that applies.
#[derive(Clone, Copy, Debug, PartialEq, Eq)]
pub enum MapTableFault {
    /// It is no table.
    NoTable,
    /// It has a key beside `name` and `file`.
    UnknownKey,
    /// Its `name` is missing, or is no text of letters, digits, `_` and `-`.
    NoName,
    /// Its `file` is missing, or is no text.
    NoFile,
    /// An earlier one has its name.
    NameTwice,
}

/// Why octets say nothing of maps, and where.
#[derive(Debug, Drop)]
pub enum PlanMapsError {
    /// They are no TOML document; or memory ran out.
    Document(PlanTextError),
    /// The value of `map` is no array.
    NoMaps,
    /// The `[[map]]` that has this place in the text, counted from 1, makes no map.
    Map { place: usize, fault: MapTableFault },
}

impl From<AllocError> for PlanMapsError {
    ghost from_gives = { λ _ e. e ≡ Document texts.OutOfMemory };

    fn from(_e: AllocError) -> PlanMapsError {
        PlanMapsError::Document(PlanTextError::OutOfMemory)
    }
}

impl<T: Drop> From<AllocFailed<T>> for PlanMapsError {
    ghost from_gives = { λ _ e. e ≡ Document texts.OutOfMemory };

    fn from(_e: AllocFailed<T>) -> PlanMapsError {
        PlanMapsError::Document(PlanTextError::OutOfMemory)
    }
}
