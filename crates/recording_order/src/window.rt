//! The window of a peer.

ghost use Rattle.std.specs.Prelude.{◌≡◌, ◌<◌, [], length, slice_get, IfSome, Some};
ghost use Rattle.recording_order.specs.Windows as specs;

use crate::datagram::Datagram;
use crate::least::{Least, least_of};
use crate::lists::has_one;
use crate::numbering::Numbering;
use indexmap::IndexMap;
use std::alloc::Global;
use std::marker::Model;

/// The datagrams of a peer that wait, and the last ones that were written at the number that was due. All
/// of them take at most [`crate::ROOM`] octets; none has fewer than 16, so they are at most 4,096. With each
/// go some 100 octets of memory, and so it does with each domain of which a datagram was written. So a peer
/// takes less than 1 MB beside its domains.
#[derive(Drop)]
pub struct Window {
    pub(crate) seconds: u64,
    pub(crate) numbers: IndexMap<u32, Numbering>,
    pub(crate) waiting: Vec<Datagram>,
    pub(crate) last: Vec<Datagram>,
}

impl Model for Window {
    ghost use Rattle.recording_order.specs.Windows.{WindowView};

    ghost Value = { WindowView };

    ghost view = { λ w. record {
      seconds = w.seconds;
      numbers = w.numbers.entries;
      waiting = w.waiting.items;
      last = w.last.items;
    } };
}

impl Window {
    /// That of a peer of which nothing has come. A datagram waits for at least so many seconds; with 0 each
    /// is written at once, and none is doubled.
    pub fn new(alloc: Global, seconds: u64) -> Self
        ensures { result ≡ record { seconds = seconds; numbers = []; waiting = []; last = [] } }
    {
        Window {
            seconds,
            numbers: IndexMap::new(alloc),
            waiting: Vec::new(alloc),
            last: Vec::new(alloc),
        }
    }

    /// How many datagrams wait.
    pub fn waiting_count(&self) -> usize
        ensures { result ≡ length self.now.waiting }
    {
        self.waiting.len()
    }

    /// The numbers of a domain, of which a datagram was written.
    pub(crate) fn numbering(&self, domain: u32) -> Option<Numbering>
        ensures { result ≡ specs.numbering self.now domain }
    {
        self.numbers.get(&domain).copied()
    }

    /// The number that is due in a domain, if one is.
    pub(crate) fn due_number(&self, domain: u32) -> u32
        ensures { result ≡ specs.due_number self.now domain }
    {
        match self.numbering(domain) {
            Some(known) => known.after,
            None => 0,
        }
    }

    /// The least that waits of a domain.
    pub(crate) fn least(&self, domain: u32) -> Option<Least>
        ensures value { result ≡ specs.least self.now domain }
        ensures within { IfSome result (λ least. least.index < length self.now.waiting) }
    {
        least_of(&self.waiting, domain, self.due_number(domain))
    }

    /// Counts a datagram of a domain as doubled.
    pub(crate) fn count_doubled(&mut self, domain: u32)
        ensures { self.new ≡ specs.with_doubled self.old domain }
    {
        if let Some(known) = self.numbering(domain) {
            let counted = Numbering {
                doubled: known.doubled.saturating_add(1),
                ..known
            };
            let _ = self.numbers.insert(domain, counted).unwrap();
        }
    }

    // Counts a datagram of a domain as written before one that came earlier.
    fn count_reordered(&mut self, domain: u32)
        ensures { self.new ≡ specs.with_reordered self.old domain }
    {
        if let Some(known) = self.numbering(domain) {
            let counted = Numbering {
                reordered: known.reordered.saturating_add(1),
                ..known
            };
            let _ = self.numbers.insert(domain, counted).unwrap();
        }
    }

    /// Lets a datagram of a domain pass those that wait.
    pub(crate) fn pass(&mut self, domain: u32)
        ensures { self.new ≡ specs.passing self.old domain self.old.waiting }
    {
        if has_one(&self.waiting, domain) {
            self.count_reordered(domain);
        }
    }

    /// Lets the datagram at an index leave.
    pub(crate) fn leave_at(&mut self, index: usize) -> Datagram
        requires { index < length self.old.waiting }
        ensures left { slice_get self.old.waiting index ≡ Some result }
        ensures after { self.new ≡ specs.without self.old index result }
    {
        let domain = self.waiting[index].header().domain;
        let is_later = has_one(&self.waiting[..index], domain);
        let left = self.waiting.remove(index);
        if is_later {
            self.count_reordered(domain);
        }
        left
    }
}
