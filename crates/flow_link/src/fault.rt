//! Why there is no link.

ghost use Rattle.std.specs.Prelude.{◌≡◌};
ghost use Rattle.flow_link.specs.Faults.{number_of, name_of};

use thiserror::Error;

/// Why a link could not be made.
#[derive(Clone, Copy, Debug, PartialEq, Eq, Error)]
pub enum LinkFault {
    /// The capacity is 0 or above [`MAX_CAPACITY`](crate::MAX_CAPACITY).
    #[error("a link holds 1 to 65536 parcels")]
    Capacity,
    /// There was no memory for the ring.
    #[error("out of memory")]
    OutOfMemory,
}

impl LinkFault {
    /// The number that reports give for the fault.
    pub fn number(&self) -> u8
        ensures { result ≡ number_of self.now }
    {
        match self {
            LinkFault::Capacity => 1,
            LinkFault::OutOfMemory => 2,
        }
    }

    /// The name that reports give for the fault.
    pub fn name(&self) -> &'static str
        ensures { result.now ≡ name_of self.now }
    {
        match self {
            LinkFault::Capacity => "Capacity",
            LinkFault::OutOfMemory => "OutOfMemory",
        }
    }
}
