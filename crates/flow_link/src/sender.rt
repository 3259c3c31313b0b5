//! The end of a link that sends.

ghost use Rattle.std.specs.Prelude.{◌≡◌, ◌<◌, ◌∷◌, ◌++◌, []};
ghost use Rattle.rtrb.specs.Ring as ring;
ghost use Rattle.flow_link.specs.Parcels.{is_last as is_last_parcel};

use crate::parcel::Parcel;
use crate::waiting::Patience;
use rtrb::Producer;
use std::marker::Model;
use std::sync::Wait;

/// The end of a link that sends. It may move to a thread of its own. Contracts see its `link`, the
/// `capacity`, and all parcels `sent` so far.
#[derive(Drop)]
pub struct Sender {
    pub(crate) producer: Producer<Parcel>,
    ended: bool,
    patience: Patience,
}

impl Model for Sender {
    ghost use Rattle.std.specs.Prelude.{◌≡◌};
    ghost use Rattle.rtrb.specs.Ring as ring;
    ghost use Rattle.flow_link.specs.Ends.{SenderView};
    ghost use Rattle.flow_link.specs.Parcels.{has_last, LastEnds};

    ghost Value = { SenderView };

    ghost view = { λ s. record { link = (s.producer.end.words, s.producer.end.slots, s.producer.end.names); capacity = s.producer.capacity; sent = ring.sent s.producer } };

    ghost invariant = { λ s. (has_last (ring.sent s.producer) ≡ s.ended) × LastEnds (ring.sent s.producer) };
}

impl Sender {
    ghost use Rattle.std.specs.Prelude.{◌≡◌, ◌∷◌, ◌++◌, [], false, OnOk, IfErr};
    ghost use Rattle.rtrb.specs.Ring as ring;
    ghost use Rattle.flow_link.specs.Parcels.{has_last, LastEnds};

    #[tactic(auto, using(crate::proofs::ParcelLists::last_ends_empty))]
    pub(crate) fn new(producer: Producer<Parcel>) -> Sender
        requires { ring.sent producer ≡ [] }
        ensures { result ≡ record {
          link = (producer.end.words, producer.end.slots, producer.end.names);
          capacity = producer.capacity;
          sent = [];
        } }
    {
        let patience = Patience::new(producer.capacity());
        Sender {
            producer,
            ended: false,
            patience,
        }
    }

    /// Sends a parcel, or gives it back if the ring is full. It waits for nobody, and takes no
    /// memory.
    #[inline(always)]
    #[tactic(auto, using(crate::proofs::ParcelLists::has_last_push, crate::proofs::ParcelLists::last_ends_push))]
    pub fn try_send(&mut self, parcel: Parcel) -> Result<(), Parcel>
        requires { has_last self.old.sent ≡ false }
        ensures link { (self.new.link ≡ self.old.link) × (self.new.capacity ≡ self.old.capacity) }
        ensures ok { OnOk result (self.new.sent ≡ self.old.sent ++ parcel ∷ []) }
        ensures err { IfErr result (λ back. (back ≡ parcel) × (self.new ≡ self.old)) }
    {
        if self.producer.is_full() {
            return Err(parcel);
        }
        self.ended = push(&mut self.producer, parcel);
        self.patience.moved(1);
        Ok(())
    }

    /// Sends a parcel, and waits while the ring is full. It comes back if the receiver is gone.
    #[inline(always)]
    #[tactic(auto, using(crate::proofs::ParcelLists::has_last_push, crate::proofs::ParcelLists::last_ends_push))]
    pub fn send(&mut self, rt: &impl Wait, parcel: Parcel) -> Result<(), Parcel>
        requires { has_last self.old.sent ≡ false }
        ensures link { (self.new.link ≡ self.old.link) × (self.new.capacity ≡ self.old.capacity) }
        ensures ok { OnOk result (self.new.sent ≡ self.old.sent ++ parcel ∷ []) }
        ensures err { IfErr result (λ back. (back ≡ parcel) × (self.new ≡ self.old)) }
    {
        for _ in rt.forever() {
            if self.producer.is_abandoned() {
                return Err(parcel);
            }
            if !self.producer.is_full() {
                self.ended = push(&mut self.producer, parcel);
                self.patience.moved(1);
                return Ok(());
            }
            self.patience.wait(rt);
        }
        unreachable!()
    }

    /// Whether Last was sent.
    pub fn ended(&self) -> bool
        ensures value { result ≡ has_last self.now.sent }
        // Last stands at most once, at the end.
        ensures once { LastEnds self.now.sent }
    {
        self.ended
    }
}

// Sends a parcel for which there is room, and says whether it was Last.
#[inline(always)]
fn push(producer: &mut Producer<Parcel>, parcel: Parcel) -> bool
    requires { 0 < ring.known_free producer.old }
    ensures ring { ring.SameProducer producer.old producer.new }
    ensures sent { ring.sent producer.new ≡ ring.sent producer.old ++ parcel ∷ [] }
    ensures last { result ≡ is_last_parcel parcel }
{
    let last = is_last(&parcel);
    producer.push_reserved(parcel);
    last
}

fn is_last(parcel: &Parcel) -> bool
    ensures { result ≡ is_last_parcel parcel.now }
{
    matches!(parcel, Parcel::Last)
}
