//! Both ends of a link in one thread again.

ghost use Rattle.std.specs.Prelude.{◌≡◌};
ghost use Rattle.flow_link.specs.Faults.{number_of, name_of};

use crate::fault::LinkFault;
use crate::parcel::Parcel;
use crate::receiver::Receiver;
use crate::sender::Sender;

mod settling;

pub use settling::settle;

/// Both ends of a link, and what was still in the ring.
#[derive(Drop)]
pub struct Settled {
    sender: Sender,
    receiver: Receiver,
    /// How many of the parcels that the receiver took were taken by `settle` itself.
    drained: usize,
    /// The parcels that were sent and not taken, the oldest first.
    pub left: Vec<Parcel>,
}

/// Why a link was not settled.
#[derive(Drop)]
pub enum SettleFault {
    /// There was no memory for what is left. Both ends come back as they were.
    OutOfMemory(Sender, Receiver),
}

impl SettleFault {
    /// The number that reports give for the fault: that of [`LinkFault::OutOfMemory`].
    pub fn number(&self) -> u8
        ensures { result ≡ number_of LinkFault.OutOfMemory }
    {
        LinkFault::OutOfMemory.number()
    }

    /// The name that reports give for the fault.
    pub fn name(&self) -> &'static str
        ensures { result.now ≡ name_of LinkFault.OutOfMemory }
    {
        LinkFault::OutOfMemory.name()
    }
}
