ghost use Rattle.std.specs.Prelude.{◌≡◌, ◌≤◌, ◌++◌, length, vec_capacity, vec_len, IfOk, IfErr};
ghost use Rattle.rtrb.specs.Ring.{known_items, received};
ghost use Rattle.flow_link.specs.Ends.{IsPair};
ghost use Rattle.flow_link.specs.Settling.{Settles, HandsBack};

use super::{SettleFault, Settled};
use crate::parcel::Parcel;
use crate::receiver::Receiver;
use crate::sender::Sender;
use rtrb::Consumer;
use std::alloc::Global;

/// Takes out what is left in the ring, once both ends are in one thread again. If it runs out of
/// memory, nothing was taken out.
pub fn settle(alloc: Global, sender: Sender, receiver: Receiver) -> Result<Settled, SettleFault>
    requires { IsPair sender receiver }
    ensures ok { IfOk result (λ settled. Settles sender receiver settled) }
    ensures err { IfErr result (λ fault. HandsBack sender receiver fault) }
{
    let mut sender = sender;
    let mut receiver = receiver;
    let count = receiver.consumer.slots_beside(&mut sender.producer);
    let Ok(mut left) = Vec::with_capacity(alloc, count) else {
        return Err(SettleFault::OutOfMemory(sender, receiver));
    };
    drain(&mut receiver.consumer, &mut left, count);
    Ok(Settled {
        sender,
        receiver,
        drained: count,
        left,
    })
}

fn drain(consumer: &mut Consumer<Parcel>, left: &mut Vec<Parcel>, count: usize)
    requires count { length (known_items consumer.old) ≡ count }
    requires room { (vec_len left.old ≡ 0) × (count ≤ vec_capacity left.old) }
    ensures left { left.new.items ≡ known_items consumer.old }
    ensures taken { received consumer.new ≡ received consumer.old ++ known_items consumer.old }
{
    for _ in 0..count {
        left.push_reserved(consumer.pop_known());
    }
}
