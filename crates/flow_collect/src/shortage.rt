//! What a run whose arguments have no fault could not have.

ghost use Rattle.std.specs.Prelude.{◌≡◌};
ghost use Rattle.flow_collect.specs.declared.shortage.Shortage.TheVariants.{OutOfMemory};

use std::alloc::{AllocError, AllocFailed};

/// What a run could not have.
#[derive(Clone, Copy, Debug, PartialEq, Eq)]
pub enum Shortage {
    /// A thread couldn't be started, or an end of a link was gone early.
    NoThread,
    /// An allocation was refused, outside the sessions.
    OutOfMemory,
}

impl From<AllocError> for Shortage {
    ghost from_gives = { λ _ e. e ≡ OutOfMemory };

    fn from(_e: AllocError) -> Shortage {
        Shortage::OutOfMemory
    }
}

impl<T: Drop> From<AllocFailed<T>> for Shortage {
    ghost from_gives = { λ _ e. e ≡ OutOfMemory };

    fn from(_e: AllocFailed<T>) -> Shortage {
        Shortage::OutOfMemory
    }
}
