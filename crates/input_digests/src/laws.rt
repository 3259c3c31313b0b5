//! Laws of the definitions. Each is a function that does nothing, and its contract is the theorem: a call
//! brings that to the proof of its caller.

ghost use Rattle.std.specs.Prelude.{◌≡◌, None};
ghost use Rattle.ipfix_session.specs.Drives.{DrivesInFull};
ghost use Rattle.ipfix_session.specs.declared.report.FullReport.{FullReport};
ghost use Rattle.ipfix_session.specs.declared.session_limits.SessionLimits.{SessionLimits};
ghost use Rattle.input_digests.specs.HashedTexts.{AllCount};

use ipfix_session::laws::whole_octets_are_messages;
use ipfix_session::{Sink, Source};

/// Without a fault all octets of a source count: the digest of its session is that of all that it held.
pub fn no_fault_hashes_all<S: Source, K: Sink>()
    ensures { (limits : SessionLimits) (before after : S) (first last : K) (full : FullReport)
        → DrivesInFull S.seen K.seen limits before after first last full
        → full.report.fault ≡ None → AllCount (S.seen before).text full }
{
    whole_octets_are_messages();
}
