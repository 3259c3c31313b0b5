//! Making a link.

ghost use Rattle.std.specs.Prelude.{◌≡◌, ◌<◌, ◌↔◌, ◌⊎◌, IsErrOf, IfOk};
ghost use Rattle.flow_link.specs.Ends.{IsNewLink};
ghost use Rattle.flow_link.specs.declared.fault.LinkFault.TheVariants.{Capacity};

use crate::fault::LinkFault;
use crate::receiver::Receiver;
use crate::sender::Sender;
use rtrb::RingBuffer;
use std::alloc::Global;

/// The largest capacity of a link, in parcels.
pub const MAX_CAPACITY: usize = 65_536;

/// Makes a link with room for `capacity` parcels, 1 to [`MAX_CAPACITY`], and takes all the memory
/// that it needs.
pub fn link(alloc: Global, capacity: usize) -> Result<(Sender, Receiver), LinkFault>
    ensures capacity { IsErrOf result Capacity
        ↔ ((capacity ≡ 0) ⊎ (MAX_CAPACITY < capacity)) }
    ensures ok { IfOk result (λ ends. IsNewLink capacity ends.0 ends.1) }
{
    if capacity == 0 || capacity > MAX_CAPACITY {
        return Err(LinkFault::Capacity);
    }
    let Ok((producer, consumer)) = RingBuffer::new(alloc, capacity) else {
        return Err(LinkFault::OutOfMemory);
    };
    Ok((Sender::new(producer), Receiver::new(consumer)))
}
