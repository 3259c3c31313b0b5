//! Datagrams that are handed on to the recorder.

ghost use Rattle.std.specs.Prelude.{◌≡◌, false};
ghost use Rattle.recording_peers.specs.Calls.{Follows, FollowsWith, handed_on};
ghost use Rattle.recording_peers.specs.Kept as specs;

use crate::peer_state::PeerState;
use crate::refusals::one_more;
use ipfix_message::MessageFault;
use ipfix_wire::Header;
use recording_files::{FileSeries, MessageCount, RecordFault};
use recording_order::{Datagram, DatagramCounts};
use recording_peer::PeerAnswer;
use std::alloc::Global;

// What the window notes of a datagram that was recorded.
fn counts_of(count: &MessageCount) -> DatagramCounts
    ensures { result ≡ specs.counts_of count.now }
{
    DatagramCounts {
        records: count.records,
        unknown_sets: count.passed_over.unknown_sets,
    }
}

impl<F: FileSeries> PeerState<F> {
    /// Hands a datagram, which came at a second, on to the recorder now. The window notes it if it is recorded; one that is refused is
    /// counted. Nothing is noted of one that is ignored.
    pub(crate) fn hand_on(
        &mut self,
        alloc: Global,
        header: &Header,
        datagram: &[u8],
        second: u64,
        now: u64,
    ) -> Result<(), RecordFault>
        ensures { FollowsWith F.seen handed_on header.now second datagram.now self.old self.new result }
    {
        match self.recorder.take(alloc, datagram, now, &mut self.files)? {
            PeerAnswer::Recorded(count) => {
                let counts = counts_of(&count);
                match self.window.note(alloc, header, datagram, second, counts) {
                    Ok(()) => Ok(()),
                    Err(_) => Err(self.recorder.end()),
                }
            }
            PeerAnswer::Refused(fault) => {
                self.refused = Some(one_more(self.refused, fault));
                Ok(())
            }
            PeerAnswer::TooMuch => {
                self.refused = Some(one_more(self.refused, MessageFault::TooManyFields));
                Ok(())
            }
            PeerAnswer::Ignored => Ok(()),
        }
    }

    /// Hands on a datagram that waited, now.
    pub(crate) fn hand_on_waiting(
        &mut self,
        alloc: Global,
        waiting: &Datagram,
        now: u64,
    ) -> Result<(), RecordFault>
        ensures { Follows F.seen (handed_on waiting.now) false self.old self.new result }
    {
        self.hand_on(
            alloc,
            &waiting.header(),
            waiting.octets(),
            waiting.second(),
            now,
        )
    }
}
