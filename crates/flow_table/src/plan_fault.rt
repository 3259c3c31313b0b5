//! Why there is no plan.

ghost use Rattle.std.specs.Prelude.{◌≡◌};
ghost use Rattle.flow_table.specs.PlanFaults.{number_of, name_of};
ghost use Rattle.flow_table.specs.declared.plan_fault.PlanFault.TheVariants.{OutOfMemory};

use std::alloc::AllocError;
use thiserror::Error;

/// Why arguments make no plan. `Plan::new` says which of several faults is answered.
#[derive(Clone, Copy, Debug, PartialEq, Eq, Error)]
pub enum PlanFault {
    /// The intervals have a length of 0.
    #[error("the interval length is 0")]
    Length,
    /// The most intervals that a flow may cover are not 1 to [`MAX_SPREAD`](crate::MAX_SPREAD).
    #[error("a flow may cover 1 to 4096 intervals")]
    Spread,
    /// There are more than [`MAX_KEYS`](crate::MAX_KEYS) keys.
    #[error("a plan has at most 8 keys")]
    KeyCount,
    /// The element of a key is neither a number, a truth value nor an address, or its number is above
    /// 32767.
    #[error("a key is neither a number nor an address")]
    KeyKind,
    /// A key has a prefix, and its element is no address of a flow's ends, or the prefix is above 32 for
    /// IPv4 or above 128 for IPv6.
    #[error("a key cannot have that prefix")]
    Prefix,
    /// There are no counters, or more than [`MAX_COUNTERS`](crate::MAX_COUNTERS).
    #[error("a plan has 1 to 4 counters")]
    CounterCount,
    /// A counter is no delta counter of octets, packets or flows, nor one that a file of elements names
    /// and that is an unsigned number; or its number is above 32767.
    #[error("a counter is no delta counter")]
    CounterKind,
    /// An element stands twice among keys and counters, or among those that are exported for them.
    #[error("an element stands twice")]
    Repeated,
    /// An allocation was refused.
    #[error("out of memory")]
    OutOfMemory,
}

impl PlanFault {
    /// The number that reports give for the fault.
    pub fn number(&self) -> u8
        ensures { result ≡ number_of self.now }
    {
        match self {
            PlanFault::Length => 1,
            PlanFault::Spread => 2,
            PlanFault::KeyCount => 3,
            PlanFault::KeyKind => 4,
            PlanFault::CounterCount => 5,
            PlanFault::CounterKind => 6,
            PlanFault::Repeated => 7,
            PlanFault::OutOfMemory => 8,
            PlanFault::Prefix => 9,
        }
    }

    /// The name that reports give for the fault.
    pub fn name(&self) -> &'static str
        ensures { result.now ≡ name_of self.now }
    {
        match self {
            PlanFault::Length => "Length",
            PlanFault::Spread => "Spread",
            PlanFault::KeyCount => "KeyCount",
            PlanFault::KeyKind => "KeyKind",
            PlanFault::CounterCount => "CounterCount",
            PlanFault::CounterKind => "CounterKind",
            PlanFault::Repeated => "Repeated",
            PlanFault::OutOfMemory => "OutOfMemory",
            PlanFault::Prefix => "Prefix",
        }
    }
}

impl From<AllocError> for PlanFault {
    ghost from_gives = { λ _ e. e ≡ OutOfMemory };

    fn from(_e: AllocError) -> PlanFault {
        PlanFault::OutOfMemory
    }
}
