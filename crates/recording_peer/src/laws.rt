//! Laws of the definitions. Each is a function that does nothing, and its contract is the theorem: a
//! call brings that to the proof of its caller.

ghost use Rattle.std.specs.Prelude.{◌∷◌, [], ℕ, List};
ghost use Rattle.ipfix_session.specs.Given.{octets_of};
ghost use Rattle.recording_files.specs.FileReports.{AddUp};
ghost use Rattle.recording_files.specs.Files.{all_of};
ghost use Rattle.recording_peer.specs.declared.peer_session.PeerSession.{PeerSession};
ghost use Rattle.recording_peer.specs.Peers.{known_after_all};
ghost use Rattle.recording_peer.specs.Places.{SaysInForce};
ghost use Rattle.recording_peer.specs.Recording.{AfterTaken, EndedBy, ForTold, Held, PeerView, StopsAt, TurnedUnknown, HasStopped, GiveRecordsOverUdp, KeepsWhole, IsPeerTold, ReportsAddUp, taken_in};

/// The files of a peer, with the one that isn't finished, are each read by itself as a session of a
/// connection is, with no fault; and one after another they give the data records of the datagrams that
/// were taken, each once, in their order, under the templates in force after the rules over UDP, but for the options records that
/// a file tells again at its head.
pub fn files_give_the_records_over_udp()
    ensures { (h : Held []) → GiveRecordsOverUdp (all_of h.since) (taken_in h.filed) }
{}

/// One after another, as octets, those files are one session of a connection, with no fault and with the same
/// data records, those that are told again among them.
pub fn files_are_one_session()
    ensures { (h : Held [])
        → GiveRecordsOverUdp (octets_of (all_of h.since) ∷ []) (taken_in h.filed) }
{}

/// The files of a peer that ended with a fault, while this datagram was taken, keep the whole datagrams.
pub fn files_keep_whole_datagrams()
    ensures { (e : EndedBy HasStopped)
        → KeepsWhole (taken_in e.filed) e.datagram (all_of e.since) }
{}

/// The reports that were given with the files of a peer, with that of the file that isn't finished, add up to
/// the session's, each sum that has not stopped at `u64::MAX`: so do the losses and the steps backward
/// over all domains. After a fault they do too. Where a file was finished, but the answer was that it
/// wasn't, its report was given and is told once more: then those that were given add up.
pub fn file_reports_add_up()
    ensures told { (cut_off : List ℕ) (h : Held cut_off) (r : PeerSession)
        → IsPeerTold r h.filed → ReportsAddUp h.since.reports r }
    ensures stopped { (e : EndedBy (λ _. StopsAt)) → ForTold e.told (ReportsAddUp e.since.reports) }
    ensures turned { (e : EndedBy (λ _ first after c filed _. TurnedUnknown first after c filed))
        → ForTold e.told (λ r. AddUp e.since.reports r.session.report) }
{}

/// Whether a peer has a template ([`PeerRecorder::has_template`](crate::PeerRecorder::has_template)) says whether one is in force
/// over UDP: it is known in one of the domains, and its id isn't one of those that have none.
pub fn has_template_in_force()
    ensures { (s : PeerView) → AfterTaken s (λ ts. SaysInForce s (known_after_all ts)) }
{}
