//! What is counted of each domain.

ghost use Rattle.std.specs.Prelude.{◌≡◌, ◌<◌, Some, IfOk, OnErr, length, map, slice_get};
ghost use Rattle.recording_order.specs.Counts as specs;

use crate::numbering::Numbering;
use crate::window::Window;
use indexmap::IndexMap;
use std::alloc::{AllocError, Global};

/// What was counted of a domain since its counts began.
#[derive(Clone, Copy, Debug, PartialEq, Eq)]
pub struct OrderCounts {
    /// The domain.
    pub domain: u32,
    /// How many datagrams were doubled.
    pub doubled: u64,
    /// How many were written before one that came earlier.
    pub reordered: u64,
}

impl OrderCounts {
    // Whether one was doubled, or reordered.
    fn is_told(&self) -> bool
        ensures { result ≡ specs.is_told self.now }
    {
        0 < self.doubled || 0 < self.reordered
    }
}

// Begins the counts of each domain anew.
fn begin_counts(numbers: &mut IndexMap<u32, Numbering>)
    ensures { numbers.new.entries ≡ map specs.none_counted numbers.old.entries }
{
    for index in 0..numbers.len() {
        let known = numbers.get_index_mut(index).unwrap();
        known.doubled = 0;
        known.reordered = 0;
    }
}

impl Window {
    /// How many domains have numbers.
    pub fn domain_count(&self) -> usize
        ensures { result ≡ length self.now.numbers }
    {
        self.numbers.len()
    }

    /// What was counted of the domain at an index since the counts began, in the order in which a datagram of
    /// them was first written. This needs no memory.
    pub fn counts_at(&self, index: usize) -> OrderCounts
        requires { index < length self.now.numbers }
        ensures { slice_get (map specs.counts_of self.now.numbers) index ≡ Some result }
    {
        let (domain, known) = self.numbers.get_index(index).unwrap();
        OrderCounts {
            domain: *domain,
            doubled: known.doubled,
            reordered: known.reordered,
        }
    }

    // The counts of the domains of which a datagram was doubled or reordered.
    fn told_counts(&self, alloc: Global) -> Result<Vec<OrderCounts>, AllocError>
        ensures { IfOk result (λ counts. counts.items ≡ specs.told_counts self.now) }
    {
        let mut told = Vec::new(alloc);
        for index in 0..self.numbers.len() {
            let (domain, known) = self.numbers.get_index(index).unwrap();
            let counts = OrderCounts {
                domain: *domain,
                doubled: known.doubled,
                reordered: known.reordered,
            };
            if counts.is_told() {
                told.push(counts)?;
            }
        }
        Ok(told)
    }

    /// The counts of the domains of which a datagram was doubled or reordered since the counts began, in the
    /// order in which a datagram of them was first written. They begin anew. An `Err` changes nothing.
    pub fn take_counts(&mut self, alloc: Global) -> Result<Vec<OrderCounts>, AllocError>
        ensures told { IfOk result (λ counts. counts.items ≡ specs.told_counts self.old) }
        ensures begun { IfOk result (λ counts. self.new ≡ specs.with_counts_begun self.old) }
        ensures err { OnErr result (self.new ≡ self.old) }
    {
        let counts = self.told_counts(alloc)?;
        begin_counts(&mut self.numbers);
        Ok(counts)
    }
}
