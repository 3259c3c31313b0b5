//! A session of a peer.

ghost use Rattle.std.specs.Prelude.{◌≡◌, [], None};
ghost use Rattle.recording_files.specs.Files.{IsEmpty};
ghost use Rattle.recording_peer.specs.Recording.{left_listed};
ghost use Rattle.recording_peers.specs.Calls.{Takes, TakesTurn};
ghost use Rattle.recording_peers.specs.Kept.{IsSession};

use crate::peer_limits::PeerLimits;
use crate::refusals::{Refusals, one_more};
use crate::turn::Turn;
use ipfix_message::header_of;
use recording_files::{FileSeries, RecordFault};
use recording_order::Window;
use recording_peer::PeerRecorder;
use recording_resumption::EarlierDomains;
use std::alloc::Global;

/// A session of a peer, while its datagrams are put into order and recorded.
#[derive(Drop)]
pub struct PeerState<F> {
    /// What records them.
    pub recorder: PeerRecorder,
    /// The session's files.
    pub files: F,
    /// Its datagrams that wait, and what is known of those that were recorded.
    pub window: Window,
    /// When its last datagram came, in seconds.
    pub heard: u64,
    /// Its datagrams that were refused and aren't reported yet, if there are any.
    pub refused: Option<Refusals>,
    /// How many of its domains that went on after an earlier run were told.
    pub resumptions_told: usize,
}

impl<F: FileSeries> PeerState<F> {
    /// The session of a peer of which nothing has come, with files in which nothing stands, and with what an earlier run
    /// left of the peer's domains, and with the limits of sessions, at a time in seconds.
    pub fn new(
        alloc: Global,
        files: F,
        earlier: EarlierDomains,
        limits: PeerLimits,
        now: u64,
    ) -> Self
        requires { IsEmpty (F.seen files).contents }
        ensures session { IsSession F.seen result limits [] }
        ensures heard { result.heard ≡ now }
        ensures files { result.files ≡ files }
        ensures none_told { (result.refused ≡ None) × (result.resumptions_told ≡ 0) }
        ensures earlier { result.recorder.earlier ≡ left_listed earlier.entries }
    {
        PeerState {
            recorder: PeerRecorder::new(alloc, earlier, limits.templates, limits.reorder),
            files,
            window: Window::new(alloc, limits.reorder),
            heard: now,
            refused: None,
            resumptions_told: 0,
        }
    }

    /// Takes a datagram, which came at a time in seconds. One whose header can't be read is refused, and
    /// counted. Any other is recorded as [`PeerRecorder::take`] does if it is due, or its number is before
    /// that, or none is due; it waits if it is ahead, and it is dropped and counted if it came already. Those
    /// that waited for it are recorded then. One that the recorder refuses is counted, too.
    ///
    /// The fault is the recorder's, or `OutOfMemory` where one can't wait or be noted: then the session has
    /// ended.
    pub fn take(&mut self, alloc: Global, datagram: &[u8], second: u64) -> Result<(), RecordFault>
        ensures { Takes F.seen self.old self.new datagram.now second result }
    {
        self.heard = second;
        match header_of(datagram) {
            Ok(header) => self.take_in_order(alloc, &header, datagram, second),
            Err(fault) => {
                self.refused = Some(one_more(self.refused, fault));
                Ok(())
            }
        }
    }

    /// A second has begun: the refused datagrams are told now; those that waited long enough are recorded; and
    /// if a period is over, the file is finished, if it has a datagram, as [`PeerRecorder::finish_file`] does,
    /// and the counts of doubled and reordered datagrams are told and begin anew. The domains that went on after
    /// an earlier run are told, if they weren't. Without memory for these or for the counts they are kept for the
    /// next time.
    pub fn take_turn(&mut self, alloc: Global, second: u64, is_over: bool) -> Turn
        ensures { TakesTurn F.seen self.old self.new second is_over result }
    {
        let refused = self.refused.take();
        let answer = self.go_on(alloc, second, is_over);
        let orders = self.take_orders(alloc, is_over);
        let resumed = self.take_resumed(alloc);
        Turn {
            refused,
            orders,
            resumed,
            answer,
        }
    }
}
