//! Datagrams that waited, and are handed on now.

ghost use Rattle.std.specs.Prelude.{false};
ghost use Rattle.recording_order.specs.Releases.{empty, finish, settle, tick};
ghost use Rattle.recording_peers.specs.Calls.{Follows};

use crate::peer_state::PeerState;
use recording_files::{FileSeries, RecordFault};
use std::alloc::Global;

impl<F: FileSeries> PeerState<F> {
    /// Hands on those of a domain that are to be recorded at a second, one after another.
    pub(crate) fn settle(
        &mut self,
        alloc: Global,
        domain: u32,
        second: u64,
    ) -> Result<(), RecordFault>
        ensures { Follows F.seen (λ says r. settle says domain second r) false self.old
            self.new result }
    {
        for _round in 0..self.window.waiting_count() {
            let Some(next) = self.window.next(domain, second) else {
                return Ok(());
            };
            self.hand_on_waiting(alloc, &next, second)?;
        }
        Ok(())
    }

    /// Hands on all of a domain that wait, the least first, now.
    pub(crate) fn empty(&mut self, alloc: Global, domain: u32, now: u64) -> Result<(), RecordFault>
        ensures { Follows F.seen (λ says r. empty says domain r) false self.old self.new
            result }
    {
        for _round in 0..self.window.waiting_count() {
            let Some(next) = self.window.leave_domain(domain) else {
                return Ok(());
            };
            self.hand_on_waiting(alloc, &next, now)?;
        }
        Ok(())
    }

    /// Hands on those whose time is over at a second that has begun, and what follows on them.
    pub(crate) fn tick(&mut self, alloc: Global, second: u64) -> Result<(), RecordFault>
        ensures { Follows F.seen (λ says r. tick says second r) false self.old self.new
            result }
    {
        for _round in 0..self.window.waiting_count() {
            let Some(domain) = self.window.late_domain(second) else {
                return Ok(());
            };
            self.settle(alloc, domain, second)?;
        }
        Ok(())
    }

    /// At the end of the session all that wait are recorded, those of a domain in their order, at the second of the last datagram that
    /// came. The fault is as that of [`PeerState::take`].
    pub fn release(&mut self, alloc: Global) -> Result<(), RecordFault>
        ensures { Follows F.seen finish false self.old self.new result }
    {
        for _round in 0..self.window.waiting_count() {
            let Some(next) = self.window.leave() else {
                return Ok(());
            };
            self.hand_on_waiting(alloc, &next, self.heard)?;
        }
        Ok(())
    }
}
