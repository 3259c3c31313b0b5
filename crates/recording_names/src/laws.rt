//! Laws of the definitions. Each is a function that does nothing, and its contract is the theorem.

ghost use Rattle.std.specs.Prelude.{◌≡◌, ◌≢◌, ◌<◌, ◌^◌, ℕ, List};
ghost use Rattle.std.specs.declared.net.socket_addr.SocketAddr.{SocketAddr};
ghost use Rattle.recording_names.specs.SessionNames.{AreInRange, SessionParts, name_of_session, text_of};
ghost use Rattle.recording_names.specs.declared.transport.Transport.{Transport};

/// Sessions of different numbers have different names, whatever their peers, and whatever they come over.
pub fn sessions_differ_in_name()
    ensures { (peer other : SocketAddr) (transport over : Transport) (number next : ℕ)
        → number < 2 ^ 64 → next < 2 ^ 64 → number ≢ next
        → name_of_session peer transport number ≢ name_of_session other over next }
{}

/// What is read of a session's name is what it was made of: the address as it is written, the port, what the
/// session comes over, and its number.
pub fn names_say_one_session()
    ensures { (s t : SessionParts) → AreInRange s → AreInRange t → text_of s ≡ text_of t → s ≡ t }
{}
