//! Laws of the definitions. Each is a function that does nothing, and its contract is the theorem: a
//! call brings that to the proof of its caller.

ghost use Rattle.std.specs.Prelude.{◌≡◌, ◌++◌, ℕ, Bool, List, Ok, false};
ghost use Rattle.std.specs.declared.net.socket_addr.SocketAddr.{SocketAddr};
ghost use Rattle.lru.specs.LruCache.{last_entry};
ghost use Rattle.recording_order.specs.InOrder.{AreInOrder};
ghost use Rattle.recording_order.specs.Releases.{finish};
ghost use Rattle.recording_peers.specs.declared.peer_state.PeerState.{PeerState};
ghost use Rattle.recording_peers.specs.declared.peer_limits.PeerLimits.{PeerLimits};
ghost use Rattle.recording_peers.specs.declared.in_turn.InTurn.{InTurn};
ghost use Rattle.recording_peers.specs.Calls.{Follows};
ghost use Rattle.recording_peers.specs.Happenings.{Happening};
ghost use Rattle.recording_peers.specs.Kept.{IsReleased, IsSession, Recording};
ghost use Rattle.recording_peers.specs.Runs.{AreRecorded, IsNeverEvicted, happened_after, own_of};
ghost use Rattle.recording_peers.specs.Sessions.{EvictedStands, PeerHappenings, StandAfter, StandAfterTurn, happened_to};
ghost use Rattle.recording_peers.specs.Standings.{HasAllThatCame, Released, StandIn, Standing, course_of};
ghost use Rattle.recording_peers.specs.Steps.{GoesOn, PeerSessions, Reception, Records};
ghost use Rattle.recording_peers.specs.Table.{without_last};

use crate::peer_place::PeerPlace;
use recording_files::FileSeries;
use recording_order::laws::{
    counts_change_nothing, in_order_nothing_changes, only_what_was_handed_on_is_asked,
    with_no_seconds_nothing_changes,
};

/// Where the session of each peer stands for what happened to that peer since it began, so it does after one
/// more datagram: that takes its place among those of its own peer, and no other session has changed. The
/// first of a peer begins a session. The session of a peer that goes out still stands for its own; one that
/// ended has those of its datagrams that were handed on before.
pub fn sessions_stand_for_their_datagrams<F: FileSeries, P: PeerPlace<F>>()
    ensures { (s : Standing F.seen) (most : ℕ) (r : Reception F) (after : PeerSessions F)
        → Records F.seen P.made_for s.limits most r s.sessions after
        → StandAfter F.seen s.limits r after s.own }
{
    only_what_was_handed_on_is_asked();
    counts_change_nothing();
}

/// When the peer that was silent for longest has had its turn, each session stands for what happened to its
/// peer, and the last one's also for the second that began, whether its file was finished or not; and so
/// does one that ended at that.
pub fn sessions_stand_in_turn<F: FileSeries>()
    ensures { (s : Standing F.seen) (second : ℕ) (is_over : Bool) (after : PeerSessions F)
        (t : InTurn F) → GoesOn F.seen second is_over s.sessions after t
        → StandAfterTurn F.seen s.limits second t after s.own }
{
    only_what_was_handed_on_is_asked();
    counts_change_nothing();
}

/// The peer that was silent for longest stands for its own when it goes out, and the others for theirs.
pub fn sessions_stand_without_the_last<F: FileSeries>()
    ensures last { (s : Standing F.seen)
        → EvictedStands F.seen s.limits (last_entry s.sessions) (last_entry s.own) }
    ensures others { (s : Standing F.seen)
        → StandIn s (without_last s.sessions) (without_last s.own) }
{}

/// Over datagrams of any peers, one after another: the session of each peer that is kept then stands for the
/// datagrams of that peer only, as many as came since it began. Where the peer's session didn't go out in
/// between, these are all of its own in their order, whatever came from others.
pub fn sessions_stand_for_their_own<F: FileSeries, P: PeerPlace<F>>()
    ensures stand { (s : Standing F.seen) (most : ℕ) (rs : List (Reception F)) (after : PeerSessions F)
        → AreRecorded F.seen P.made_for s.limits most rs s.sessions after
        → StandIn s after (happened_after rs s.own) }
    ensures own { (rs : List (Reception F)) (cs : PeerHappenings) (peer : SocketAddr)
        → IsNeverEvicted peer rs cs
        → happened_to peer (happened_after rs cs) ≡ happened_to peer cs ++ own_of peer rs }
{
    only_what_was_handed_on_is_asked();
    counts_change_nothing();
}

/// The files of a session that stands for what happened to its peer, and in which none waits any more, have
/// what is released of the datagrams that came. Where none waits at all, or each came in its order, these are
/// all that came, as they came.
pub fn files_have_what_is_released<F: FileSeries>()
    ensures released { (old new : PeerState F) (limits : PeerLimits) (hs : List Happening)
        → IsSession F.seen old limits hs → Follows F.seen finish false old new (Ok tt)
        → (p : Recording) × IsReleased F.seen new limits hs p }
    ensures off { (r : Released F.seen) → (course_of r).seconds ≡ 0 → HasAllThatCame r }
    ensures in_order { (r : Released F.seen) → AreInOrder (course_of r) → HasAllThatCame r }
{
    only_what_was_handed_on_is_asked();
    counts_change_nothing();
    with_no_seconds_nothing_changes();
    in_order_nothing_changes();
}
