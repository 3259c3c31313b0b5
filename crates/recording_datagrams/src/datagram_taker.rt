//! What takes datagrams: the peers that are kept, where their files are, and what is told.

use crate::taking::record_and_tell;
use crate::ticking::{end_silent, go_over, tell_unserved};
use network_prefixes::PeerFilter;
use recording_connections::{RecordingFiles, SharedCounts};
use recording_files::PeriodClock;
use recording_peers::{Datagram, NoDatagram, PeerPlace, Peers};
use report_writing::WriteLines;
use std::alloc::Global;
use std::io;
use std::net::SocketAddr;

/// What takes datagrams.
#[derive(Drop)]
pub struct DatagramTaker<'a, F, P, W: WriteLines + Drop> {
    pub alloc: Global,
    /// The peers that are kept.
    pub peers: Peers<F>,
    /// Where their files are made, all in the same periods.
    pub place: P,
    /// Which peers may send.
    pub filter: &'a PeerFilter,
    /// How many seconds a peer may be silent.
    pub idle: u64,
    /// The second that it is at. It never goes back.
    pub second: u64,
    /// The datagrams of peers that may not send, and those that could not be received.
    pub unserved: SharedCounts,
    /// What lines are written to.
    pub out: W,
}

impl<
    'a,
    F: RecordingFiles + Drop,
    P: PeerPlace<F> + PeriodClock,
    W: WriteLines + Drop,
> DatagramTaker<'a, F, P, W> {
    ghost use Rattle.std.specs.Prelude.{◌≡◌, ◌≤◌, Bool, Result, IfOk, length};
    ghost use Rattle.recording_peers.specs.Answers.{answer_of};
    ghost use Rattle.recording_peers.specs.declared.datagram_source.Datagram.{Datagram};
    ghost use Rattle.recording_peers.specs.declared.datagram_source.NoDatagram.{NoDatagram};
    ghost use Rattle.recording_datagrams.specs.Rounds.{Does, KeepsToSeconds, KeepsToPeriods, TakesArrival, TakesGiven, TellsAndEnds, answer_in};
    ghost use Rattle.recording_datagrams.specs.Taking.{Arrival};

    /// All peers have their turn, in which their files are finished, if the period of the place is over.
    pub fn keep_to_periods(&mut self, now: u64) -> io::Result<()>
        ensures { (is_over : Bool) × Does W.lines self.old self.new result
            (KeepsToPeriods F.seen F.finishes P.made_for P.asked is_over now) }
    {
        if self.place.is_over() {
            go_over(self.alloc, &mut self.peers, now, true, &mut self.out)
        } else {
            Ok(())
        }
    }

    /// Takes what a source gave into a buffer, in a second. A datagram of a peer that may not send is counted,
    /// and nothing more; another is taken, as `Peers::record` does, and each session that ends at that is told. That
    /// none could be received is counted.
    pub fn take(
        &mut self,
        received: Result<Datagram, NoDatagram>,
        buffer: &[u8],
        now: u64,
    ) -> io::Result<()>
        requires { IfOk received (λ d. d.length ≤ length buffer.now) }
        ensures { (given : Result Arrival NoDatagram)
            × (answer_in given ≡ answer_of received buffer.now)
            × Does W.lines self.old self.new result
            (TakesGiven F.seen F.finishes P.made_for P.asked given now) }
    {
        match received {
            Ok(Datagram { length, peer }) => self.take_from(peer, &buffer[..length], now),
            Err(NoDatagram::Tick) => Ok(()),
            Err(NoDatagram::Failed) => {
                self.unserved.count_not_accepted();
                Ok(())
            }
        }
    }

    // Takes a datagram of a peer. If the peer may not send, or has no place and the datagram begins no session, it is
    // counted, and nothing more. Otherwise it is taken, as
    // `Peers::record` does, and each session that ends at that is reported; without memory to begin a session that is
    // told as its fault.
    fn take_from(&mut self, from: SocketAddr, datagram: &[u8], now: u64) -> io::Result<()>
        ensures { (may_send : Bool) × Does W.lines self.old self.new result
            (TakesArrival F.seen F.finishes P.made_for P.asked
            (record { peer = from; octets = datagram.now; may_send = may_send }) now) }
    {
        if !self.filter.lets_in(from.ip()) {
            self.unserved.refuse(from);
            return Ok(());
        }
        record_and_tell(
            self.alloc,
            &mut self.peers,
            &mut self.place,
            &mut self.unserved,
            from,
            datagram,
            now,
            &mut self.out,
        )
    }

    /// Goes on to a second. If it is a new one, all peers have their turn, and the sessions of peers end that have
    /// been silent for longer than they may be.
    pub fn go_on_to(&mut self, now: u64) -> io::Result<()>
        ensures { Does W.lines self.old self.new result
            (KeepsToSeconds F.seen F.finishes now) }
    {
        if now <= self.second {
            return Ok(());
        }
        self.tell_and_end(now)
    }

    // All peers have their turn, and the sessions of those end that have been silent for too long.
    fn tell_and_end(&mut self, now: u64) -> io::Result<()>
        ensures { Does W.lines self.old self.new result
            (TellsAndEnds F.seen F.finishes now) }
    {
        self.second = now;
        let told = go_over(self.alloc, &mut self.peers, now, false, &mut self.out);
        let since = now.saturating_sub(self.idle);
        let ended = end_silent(self.alloc, &mut self.peers, since, &mut self.out);
        let unserved = tell_unserved(&mut self.unserved, &mut self.out);
        told.and(ended.and(unserved))
    }
}
