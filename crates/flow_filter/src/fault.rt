//! Why texts make no condition.

ghost use Rattle.std.specs.Prelude.{◌≡◌};
ghost use Rattle.flow_filter.specs.declared.fault.FilterFault.TheVariants.{OutOfMemory};

use std::alloc::{AllocError, AllocFailed};
use thiserror::Error;

/// Why an element and texts make no condition: the first of these that applies.
#[derive(Clone, Copy, Debug, PartialEq, Eq, Error)]
pub enum FilterFault {
    /// The element's values are no unsigned numbers, and no addresses of IPv4 or IPv6.
    #[error("a condition is of another element than numbers and addresses of IP")]
    Kind,
    /// There is no text, or there are more than 64.
    #[error("a condition has no text or too many")]
    Count,
    /// The text at this place, counted from 0, says no values of the element: the first such text.
    #[error("a text of a condition says no values of its element")]
    Text { place: usize },
    /// An allocation was refused.
    #[error("out of memory")]
    OutOfMemory,
}

impl From<AllocError> for FilterFault {
    ghost from_gives = { λ _ e. e ≡ OutOfMemory };

    fn from(_e: AllocError) -> FilterFault {
        FilterFault::OutOfMemory
    }
}

impl<T: Drop> From<AllocFailed<T>> for FilterFault {
    ghost from_gives = { λ _ e. e ≡ OutOfMemory };

    fn from(_e: AllocFailed<T>) -> FilterFault {
        FilterFault::OutOfMemory
    }
}
