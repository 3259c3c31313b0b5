//! Laws of the definitions. Each is a function that does nothing, and its contract is the theorem.

ghost use Rattle.std.specs.Prelude.{◌≡◌, List, Bool, true, false};
ghost use Rattle.std.specs.List.{Contains};
ghost use Rattle.ipfix_wire.specs.declared.header.Header.{Header};
ghost use Rattle.recording_resumption.specs.Resumption.{Datagram, IsNotBefore, after, after_all, goes_on};
ghost use Rattle.recording_resumption.specs.declared.earlier.Earlier.TheVariants.{Ended, Resumed, Waiting};
ghost use Rattle.recording_resumption.specs.declared.last_message.LastMessage.{LastMessage};

/// What resumes is never before the last message that is kept: templates are known again only after a datagram
/// whose number isn't before that message's, and whose export time isn't earlier.
pub fn what_resumes_is_never_before()
    ensures { (last : LastMessage) (is_doubted : Bool) (ds : List Datagram)
        → after_all (Waiting last is_doubted) ds ≡ Resumed
        → (d : Datagram) × Contains ds d × IsNotBefore last d.header }
{}

/// After an end nothing resumes.
pub fn nothing_resumes_after_an_end()
    ensures { (ds : List Datagram) → after_all Ended ds ≡ Ended }
{}

/// One datagram that doesn't go on, whoever sent it, loses nothing if it defines no template: the next that
/// goes on resumes.
pub fn one_datagram_loses_nothing()
    ensures { (last : LastMessage) (other next : Header) (defines : Bool)
        → goes_on last next ≡ true
        → after (after (Waiting last false) other false) next defines ≡ Resumed }
{}
