//! A sink over a link.

use crate::gate::Gate;
use flow_link::{Parcel, Sender};
use ipfix_message::DataRecord;
use ipfix_session::Sink;
use std::sync::Wait;

/// Sends each record over a link, once the gate lets it. Its counts stop at `u64::MAX`.
#[derive(Drop)]
pub struct LinkSink<'a, R: Wait, G: Gate> {
    rt: &'a R,
    gate: &'a G,
    session: usize,
    /// How many parcels it sent, Last among them.
    pub sent: u64,
    /// How many records it gave back.
    pub refused: u64,
    /// The end of the link that it sends over.
    pub sender: Sender,
}

impl<'a, R: Wait, G: Gate> LinkSink<'a, R, G> {
    ghost use Rattle.std.specs.Prelude.{◌≡◌, ◌∷◌, ◌++◌, []};
    ghost use Rattle.std.specs.Bool.{OnFalse, OnTrue};
    ghost use Rattle.ipfix_session.specs.Sources.{one_more};
    ghost use Rattle.flow_link.specs.declared.parcel.Parcel.TheVariants.{Last};

    /// A sink of this session over a link.
    pub fn new(rt: &'a R, gate: &'a G, session: usize, sender: Sender) -> Self
        ensures { (result.sender ≡ sender) × (result.sent ≡ 0) × (result.refused ≡ 0) }
    {
        LinkSink {
            rt,
            gate,
            session,
            sent: 0,
            refused: 0,
            sender,
        }
    }

    /// Sends Last, and says whether it did. It didn't if Last was sent before, or if the receiver is
    /// gone.
    pub fn send_last(&mut self) -> bool
        ensures link { self.new.sender.link ≡ self.old.sender.link }
        ensures capacity { self.new.sender.capacity ≡ self.old.sender.capacity }
        ensures sent { OnTrue result
            (self.new.sender.sent ≡ self.old.sender.sent ++ Last ∷ []) }
        ensures unsent { OnFalse result (self.new.sender ≡ self.old.sender) }
        ensures counted { OnTrue result (self.new.sent ≡ one_more self.old.sent) }
        ensures uncounted { OnFalse result (self.new.sent ≡ self.old.sent) }
        ensures refused { self.new.refused ≡ self.old.refused }
    {
        if self.sender.ended() {
            return false;
        }
        self.gate.before_send(self.session, self.sent);
        if self.sender.send(self.rt, Parcel::Last).is_err() {
            return false;
        }
        self.sent = self.sent.saturating_add(1);
        true
    }
}

impl<'a, R: Wait, G: Gate> Sink for LinkSink<'a, R, G> {
    ghost use Rattle.std.specs.Prelude.{◌≡◌, OnOk, OnErr, IfErr};
    ghost use Rattle.ipfix_session.specs.Sources.{one_more};
    ghost use Rattle.flow_collect.specs.Sends.{SendsItem};

    ghost seen = { record {
      took = λ before item after. SendsItem before.sender item after.sender × (after.sent ≡ one_more before.sent);
      refused = λ s. s.refused;
    } };

    /// Sends the record. It comes back if Last was sent, or if the receiver is gone.
    fn put(&mut self, item: DataRecord) -> Result<(), DataRecord>
        ensures ok { OnOk result (SendsItem self.old.sender item self.new.sender
            × (self.new.sent ≡ one_more self.old.sent)) }
        ensures none_refused { OnOk result (self.new.refused ≡ self.old.refused) }
        ensures back { IfErr result (λ given. given ≡ item) }
        ensures refused { OnErr result (self.new.refused ≡ one_more self.old.refused) }
        ensures kept { OnErr result ((self.new.sender ≡ self.old.sender)
            × (self.new.sent ≡ self.old.sent)) }
    {
        if self.sender.ended() {
            self.refused = self.refused.saturating_add(1);
            return Err(item);
        }
        self.gate.before_send(self.session, self.sent);
        match self.sender.send(self.rt, Parcel::Item(item)) {
            Ok(()) => {
                self.sent = self.sent.saturating_add(1);
                Ok(())
            }
            Err(Parcel::Item(back)) => {
                self.refused = self.refused.saturating_add(1);
                Err(back)
            }
            Err(Parcel::Last) => unreachable!(),
        }
    }
}
