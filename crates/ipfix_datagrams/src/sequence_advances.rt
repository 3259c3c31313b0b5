//! The domains of a session, and how far each reaches.

ghost use Rattle.std.specs.Prelude.{◌≡◌, ◌==◌, ◌<◌, ◌++◌, ◌∷◌, [], List, OnOk, nat_eq, length, slice_get, unwrap_or, Some};
ghost use Rattle.std.specs.Map.{lookup};
ghost use Rattle.ipfix_message.specs.Domains.{Message};
ghost use Rattle.ipfix_session.specs.Ledger.{count_in};
ghost use Rattle.ipfix_datagrams.specs.Reaches.{reach_of, reaches_of, told_of};
ghost use Rattle.ipfix_datagrams.specs.Late.{is_before};
ghost use Rattle.ipfix_datagrams.specs.Reaches.{furthest_in};
ghost use Rattle.ipfix_datagrams.specs.RecordsCame.{has_records};

use crate::domain_advance::DomainAdvance;
use crate::reach::Reach;
use indexmap::IndexMap;
use std::alloc::{AllocError, Global};
use std::marker::Model;

/// How far the sequence numbers of a session's domains advanced, in order of first appearance.
#[derive(Drop)]
pub struct SequenceAdvances {
    reaches: IndexMap<u32, Reach>,
}

impl Model for SequenceAdvances {
    ghost use Rattle.indexmap.specs.IndexMap.{spare};
    ghost use Rattle.ipfix_datagrams.specs.Reaches.{AdvancesView};

    ghost Value = { AdvancesView };

    ghost view = { λ a. record {
      reaches = a.reaches.entries;
      room = spare a.reaches;
    } };
}

impl SequenceAdvances {
    /// Those of no messages.
    pub fn new(alloc: Global) -> Self
        ensures { result.reaches ≡ [] }
    {
        SequenceAdvances {
            reaches: IndexMap::new(alloc),
        }
    }

    /// Makes room for the domain of one more message.
    pub fn make_room(&mut self) -> Result<(), AllocError>
        ensures same { self.new.reaches ≡ self.old.reaches }
        ensures room { OnOk result (0 < self.new.room) }
    {
        self.reaches.reserve(1)
    }

    // How far a domain reaches.
    fn reach(&self, domain: u32) -> Reach
        ensures { result ≡ unwrap_or (lookup (nat_eq domain) self.now.reaches) (reach_of []) }
    {
        self.reaches.get(&domain).copied().unwrap_or(Reach::EMPTY)
    }

    /// Notes a message of a domain that came: its sequence number, and how many data records it has. This
    /// takes no memory, since there is room.
    pub fn note(&mut self, domain: u32, sequence: u32, records: u64)
        requires { 0 < self.old.room }
        ensures { (ms : List Message) (m : Message) → self.old.reaches ≡ reaches_of ms
            → m.header.domain ≡ domain → m.header.sequence ≡ sequence → count_in m ≡ records
            → self.new.reaches ≡ reaches_of (ms ++ m ∷ []) }
    {
        let after = self.reach(domain).after(sequence, records);
        let _ = self.reaches.insert(domain, after).unwrap();
    }

    /// Whether a sequence number of a domain is before the one after its furthest message: in the upper half after that.
    pub fn is_before(&self, domain: u32, sequence: u32) -> bool
        ensures { result ≡ is_before (furthest_in self.now.reaches domain) sequence }
    {
        match self.reach(domain).furthest {
            Some(furthest) => sequence.wrapping_sub(furthest) >= 1 << 31,
            None => false,
        }
    }

    /// How many domains there are.
    pub fn len(&self) -> usize
        ensures { result ≡ length self.now.reaches }
    {
        self.reaches.len()
    }

    /// Whether there are none.
    pub fn is_empty(&self) -> bool
        ensures { result ≡ (length self.now.reaches == 0) }
    {
        self.reaches.is_empty()
    }

    /// Whether a data record came in one of the domains.
    pub fn has_records(&self) -> bool
        ensures { result ≡ has_records self.now.reaches }
    {
        for reach in self.reaches.values() {
            if 0 < reach.came {
                return true;
            }
        }
        false
    }

    /// What is told of the domain at an index, by order of first appearance.
    pub fn at(&self, index: usize) -> DomainAdvance
        requires { index < length self.now.reaches }
        ensures { slice_get (told_of self.now.reaches) index ≡ Some result }
    {
        let (domain, reach) = self.reaches.get_index(index).unwrap();
        DomainAdvance {
            domain: *domain,
            advance: reach.advance,
            came: reach.came,
        }
    }
}
