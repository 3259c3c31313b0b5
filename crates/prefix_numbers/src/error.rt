//! Why a text gives no map, and where.

ghost use Rattle.std.specs.Prelude.{◌≡◌};
ghost use Rattle.prefix_numbers.specs.Faults.{name_of, number_of};
ghost use Rattle.prefix_numbers.specs.declared.error.MapFault.TheVariants.{OutOfMemory};

use std::alloc::{AllocError, AllocFailed};
use thiserror::Error;

/// Why a text gives no map.
#[derive(Clone, Copy, Debug, PartialEq, Eq, Error)]
pub enum MapFault {
    /// The text is not UTF-8.
    #[error("the text is not UTF-8")]
    NotUtf8,
    /// A row does not begin with a prefix.
    #[error("a row does not begin with a prefix")]
    NoPrefix,
    /// Of a row's prefix not all bits are 0 that come after the first ones, as in 192.0.2.1/24.
    #[error("bits after the prefix of a row")]
    BitsAfter,
    /// After a row's prefix comes no comma and number from 0 to 4294967295.
    #[error("a row has no number from 0 to 4294967295")]
    NoNumber,
    /// An earlier row has the prefix.
    #[error("an earlier row has the prefix")]
    PrefixTwice,
    /// There are more rows than a map has.
    #[error("there are more rows than 1000000")]
    TooMany,
    /// An allocation was refused.
    #[error("out of memory")]
    OutOfMemory,
}

impl MapFault {
    /// The number that reports give for the fault.
    pub fn number(&self) -> u8
        ensures { result ≡ number_of self.now }
    {
        match self {
            MapFault::NotUtf8 => 2,
            MapFault::NoPrefix => 3,
            MapFault::BitsAfter => 4,
            MapFault::NoNumber => 5,
            MapFault::PrefixTwice => 6,
            MapFault::TooMany => 7,
            MapFault::OutOfMemory => 8,
        }
    }

    /// The name that reports give for the fault.
    pub fn name(&self) -> &'static str
        ensures { result.now ≡ name_of self.now }
    {
        match self {
            MapFault::NotUtf8 => "NotUtf8",
            MapFault::NoPrefix => "NoPrefix",
            MapFault::BitsAfter => "BitsAfter",
            MapFault::NoNumber => "NoNumber",
            MapFault::PrefixTwice => "PrefixTwice",
            MapFault::TooMany => "TooMany",
            MapFault::OutOfMemory => "OutOfMemory",
        }
    }
}

impl From<AllocError> for MapFault {
    ghost from_gives = { λ _ e. e ≡ OutOfMemory };

    fn from(_error: AllocError) -> MapFault {
        MapFault::OutOfMemory
    }
}

impl<T: Drop> From<AllocFailed<T>> for MapFault {
    ghost from_gives = { λ _ e. e ≡ OutOfMemory };

    fn from(_error: AllocFailed<T>) -> MapFault {
        MapFault::OutOfMemory
    }
}

/// Why a text gives no map, and where.
#[derive(Clone, Copy, Debug, PartialEq, Eq)]
pub struct MapError {
    pub fault: MapFault,
    /// The line that has the fault, from 1. For want of memory it is 0.
    pub line: u64,
}

impl From<AllocError> for MapError {
    ghost from_gives = { λ _ e. e.fault ≡ OutOfMemory };

    fn from(error: AllocError) -> MapError {
        MapError {
            fault: MapFault::from(error),
            line: 0,
        }
    }
}

impl<T: Drop> From<AllocFailed<T>> for MapError {
    ghost from_gives = { λ _ e. e.fault ≡ OutOfMemory };

    fn from(error: AllocFailed<T>) -> MapError {
        MapError {
            fault: MapFault::from(error),
            line: 0,
        }
    }
}
