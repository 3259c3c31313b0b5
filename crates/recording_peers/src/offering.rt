//! A datagram that comes takes its place.

ghost use Rattle.recording_peers.specs.Calls.{FollowsWith, arriving, begun_anew, offering};

use crate::peer_state::PeerState;
use ipfix_wire::Header;
use recording_files::{FileSeries, RecordFault};
use recording_order::Offer;
use std::alloc::Global;

impl<F: FileSeries> PeerState<F> {
    // The numbers of a domain begin anew with a datagram: it is handed on after those of the domain that wait.
    fn begin_anew(
        &mut self,
        alloc: Global,
        header: &Header,
        datagram: &[u8],
        second: u64,
    ) -> Result<(), RecordFault>
        ensures { FollowsWith F.seen begun_anew header.now second datagram.now self.old self.new result }
    {
        self.empty(alloc, header.domain, second)?;
        self.hand_on(alloc, header, datagram, second, second)
    }

    // Offers a datagram to the window, and again after each other one that is first.
    fn offer(
        &mut self,
        alloc: Global,
        header: &Header,
        datagram: &[u8],
        second: u64,
    ) -> Result<(), RecordFault>
        ensures { FollowsWith F.seen offering header.now second datagram.now self.old self.new result }
    {
        for _round in 0..=self.window.waiting_count() {
            match self.window.offer(alloc, header, datagram, second) {
                Ok(Offer::Write) => return self.hand_on(alloc, header, datagram, second, second),
                Ok(Offer::Waits) => return Ok(()),
                Ok(Offer::Doubled) => return Ok(()),
                Ok(Offer::First(first)) => self.hand_on_waiting(alloc, &first, second)?,
                Ok(Offer::Anew) => return self.begin_anew(alloc, header, datagram, second),
                Err(_) => return Err(self.recorder.end()),
            }
        }
        self.hand_on(alloc, header, datagram, second, second)
    }

    /// Takes a datagram that has this header, and hands on those that waited for it.
    pub(crate) fn take_in_order(
        &mut self,
        alloc: Global,
        header: &Header,
        datagram: &[u8],
        second: u64,
    ) -> Result<(), RecordFault>
        ensures { FollowsWith F.seen arriving header.now second datagram.now self.old self.new result }
    {
        self.offer(alloc, header, datagram, second)?;
        self.settle(alloc, header.domain, second)
    }
}
