//! The end of a link that receives.

ghost use Rattle.std.specs.Prelude.{◌≡◌};

use crate::parcel::Parcel;
use crate::waiting::Patience;
use rtrb::Consumer;
use std::marker::Model;
use std::sync::Wait;

/// The end of a link that receives. It may move to a thread of its own. Contracts see its `link`,
/// the `capacity`, and all parcels `received` so far.
#[derive(Drop)]
pub struct Receiver {
    pub(crate) consumer: Consumer<Parcel>,
    patience: Patience,
}

impl Model for Receiver {
    ghost use Rattle.rtrb.specs.Ring as ring;
    ghost use Rattle.flow_link.specs.Ends.{ReceiverView};

    ghost Value = { ReceiverView };

    ghost view = { λ r. record { link = (r.consumer.end.words, r.consumer.end.slots, r.consumer.end.names); capacity = r.consumer.capacity; received = ring.received r.consumer } };
}

/// What a try to take gives.
#[derive(Debug, Drop)]
pub enum Taken {
    /// The oldest parcel of the ring.
    Got(Parcel),
    /// The ring is empty.
    Empty,
    /// The ring is empty, and the sender was dropped.
    Gone,
}

impl Receiver {
    ghost use Rattle.std.specs.Prelude.{◌≡◌, ◌∷◌, ◌++◌, [], IfSome, IfNone};
    ghost use Rattle.rtrb.specs.Ring as ring;
    ghost use Rattle.flow_link.specs.Taking.{IfGot, UnlessGot};

    pub(crate) fn new(consumer: Consumer<Parcel>) -> Receiver
        ensures { result ≡ record {
          link = (consumer.end.words, consumer.end.slots, consumer.end.names);
          capacity = consumer.capacity;
          received = ring.received consumer;
        } }
    {
        let patience = Patience::new(consumer.capacity());
        Receiver { consumer, patience }
    }

    /// How many parcels the link has room for.
    pub fn capacity(&self) -> usize
        ensures { result ≡ self.now.capacity }
    {
        self.consumer.capacity()
    }

    /// Takes the oldest parcel, if one is there. It waits for nobody, and takes no memory.
    #[inline(always)]
    pub fn try_recv(&mut self) -> Taken
        ensures link { (self.new.link ≡ self.old.link) × (self.new.capacity ≡ self.old.capacity) }
        ensures got { IfGot result (λ parcel. self.new.received
            ≡ self.old.received ++ parcel ∷ []) }
        ensures none { UnlessGot result (self.new ≡ self.old) }
    {
        if !self.consumer.is_empty() {
            return Taken::Got(self.consumer.pop_known());
        }
        if !self.consumer.is_abandoned() {
            return Taken::Empty;
        }
        // The sender is gone: one more look finds what it left.
        if self.consumer.is_empty() {
            return Taken::Gone;
        }
        Taken::Got(self.consumer.pop_known())
    }

    /// Takes the oldest parcel, and waits while the ring is empty. `None` if it is empty and the
    /// sender is gone.
    pub fn recv(&mut self, rt: &impl Wait) -> Option<Parcel>
        ensures link { (self.new.link ≡ self.old.link) × (self.new.capacity ≡ self.old.capacity) }
        ensures some { IfSome result (λ parcel. self.new.received
            ≡ self.old.received ++ parcel ∷ []) }
        ensures none { IfNone result (self.new ≡ self.old) }
    {
        for _ in rt.forever() {
            match self.try_recv() {
                Taken::Got(parcel) => {
                    self.patience.moved(1);
                    return Some(parcel);
                }
                Taken::Gone => return None,
                Taken::Empty => self.patience.wait(rt),
            }
        }
        unreachable!()
    }
}
