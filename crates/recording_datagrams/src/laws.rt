//! Laws of the rounds. Each is a function that does nothing, and its contract is the theorem.

ghost use Rattle.std.specs.Prelude.{◌<◌, ◌-◌};
ghost use Rattle.std.specs.declared.net.socket_addr.SocketAddr.{SocketAddr};
ghost use Rattle.recording_peers.specs.Table.{of_peer};
ghost use Rattle.recording_datagrams.specs.Rounds.{FromNone, Round};
ghost use Rattle.recording_datagrams.specs.Standing.{AreHeard, IsNextRound, NeverEnds, StandForLast, StandsForAll, own_by};
ghost use Rattle.recording_datagrams.specs.declared.datagram_taker.DatagramTaker.{DatagramTaker};

use recording_connections::RecordingFiles;
use recording_files::PeriodClock;
use recording_peers::PeerPlace;
use recording_peers::laws::{sessions_stand_for_their_datagrams, sessions_stand_in_turn};
use report_writing::WriteLines;

/// Where no peer was kept at first: after any rounds the session of each peer that is kept stands for the last
/// ones of what happened to that peer, from the datagram on that began it: its datagrams, each at the second of
/// its round, and its turns, each at the second that began; whatever came from others, and whatever sessions
/// ended. It says at which second the last datagram of its peer came.
pub fn sessions_stand_behind_rounds<
    F: RecordingFiles,
    P: PeerPlace<F> + PeriodClock,
    W: WriteLines + Drop,
>()
    ensures { (run : FromNone W F.seen F.finishes P.made_for P.asked)
        → StandForLast F.seen run.old.peers.limits (own_by run) run.new.peers.kept.entries }
{
    sessions_stand_for_their_datagrams::<F, P>();
    sessions_stand_in_turn::<F>();
}

/// Where no peer was kept at first: a session of a peer that didn't end in any of these rounds stands for all
/// that happened to that peer in them from its first datagram on, whatever came from others. If it isn't kept,
/// no datagram of it came.
pub fn session_that_stays_stands_for_all<
    F: RecordingFiles,
    P: PeerPlace<F> + PeriodClock,
    W: WriteLines + Drop,
>()
    ensures { (run : FromNone W F.seen F.finishes P.made_for P.asked) (peer : SocketAddr)
        → NeverEnds peer run → StandsForAll F.seen run.old.peers.limits
        (of_peer peer run.new.peers.kept.entries) (own_by run peer) }
{
    sessions_stand_for_their_datagrams::<F, P>();
    sessions_stand_in_turn::<F>();
}

/// Where no peer was kept at first: after a round in a new second nobody is kept that has been silent for
/// longer than a peer may be.
pub fn nobody_stays_silent<F: RecordingFiles, P: PeerPlace<F> + PeriodClock, W: WriteLines + Drop>()
    ensures { (run : FromNone W F.seen F.finishes P.made_for P.asked) (r : Round)
        (new : DatagramTaker F P W) → IsNextRound run r new
        → run.new.second < r.second → AreHeard (r.second - run.new.idle) new.peers.kept.entries }
{}
