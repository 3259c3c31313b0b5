//! Laws of the definitions. Each is a function that does nothing, and its contract is the theorem.

ghost use Rattle.std.specs.Prelude.{◌≡◌, ◌↔◌, ℕ, List, None};
ghost use Rattle.ipfix_message.specs.Domains.{Message};
ghost use Rattle.ipfix_session.specs.Places.{CountsInFull};
ghost use Rattle.ipfix_session.specs.declared.report.FullReport.{FullReport};
ghost use Rattle.report_sessions.specs.Spotless.{IsSpotlessSession, IsUnbrokenStream};

/// A session is spotless exactly if it has no fault, and its messages are an unbroken stream: in each
/// domain every message has the sequence number that is due after the one before it (RFC 7011,
/// section 3.1), each data set had its template (section 9), and no set was skipped (section 3.3.2).
pub fn spotless_is_unbroken()
    ensures { (full : FullReport) (ms : List Message) (delivered : ℕ)
        → CountsInFull full ms delivered
        → (IsSpotlessSession full) ↔ ((full.report.fault ≡ None) × IsUnbrokenStream ms) }
{}
