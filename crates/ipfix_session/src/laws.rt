//! Laws of the definitions. Each is a function that does nothing, and its contract is the theorem: a
//! call brings that to the proof of its caller.

ghost use Rattle.std.specs.Prelude.{◌≡◌, ◌≢◌, ◌≤◌, ◌++◌, [], ℕ, List, length, drop, sum_by, take, Option, Some, None, Result, Err};
ghost use Rattle.ipfix_wire.specs.Numbers.{IsOctets};
ghost use Rattle.ipfix_wire.specs.InTurn.{Parts};
ghost use Rattle.ipfix_message.specs.Domains.{Message};
ghost use Rattle.ipfix_message.specs.TemplateLimits.{fields_in};
ghost use Rattle.ipfix_message.specs.declared.record.DataRecord.{DataRecord};
ghost use Rattle.ipfix_session.specs.MessageStream.{IsCut, cut};
ghost use Rattle.ipfix_session.specs.WholeMessages.{whole_octets};
ghost use Rattle.ipfix_session.specs.Balances.{Balances, KeepsCount};
ghost use Rattle.ipfix_session.specs.Places.{messages_before_fault, place_after, place_of_fault};
ghost use Rattle.ipfix_session.specs.Given.{gives, gives_after, given_within, behind, known_of, known_within, octets_of, records_of, stop_of, AreAllOf, IsOpen, IsPrefix};
ghost use Rattle.ipfix_session.specs.Feeding.{State, Feeds, FeedsInTurn};
ghost use Rattle.ipfix_session.specs.Drives.{DrivenIsGiven, IsGiven};
ghost use Rattle.ipfix_session.specs.declared.fault.SessionFault.{SessionFault};
ghost use Rattle.ipfix_session.specs.declared.fault.SessionFault.TheVariants.{SinkClosed};
ghost use Rattle.ipfix_session.specs.declared.report.SessionReport.{SessionReport};
ghost use Rattle.ipfix_session.specs.declared.driver.TheConstants.{READ_LIMIT, READ_SIZE};
ghost use Rattle.ipfix_session.specs.declared.message_stream.TheConstants.{LONGEST_MESSAGE};

use crate::sink::Sink;
use crate::source::Source;

/// A text is cut into the longest list of messages that it begins with, one after another, and its
/// rest, with which no message begins (RFC 5655, section 6).
pub fn one_cut()
    ensures found { (w : List ℕ) → IsOctets w → IsCut (cut w) w }
    ensures only { (w : List ℕ) (parts : Parts (List ℕ)) → IsOctets w
        → IsCut parts w → cut w ≡ parts }
{}

/// The octets of a text that are whole messages are its messages one after another, as they are.
pub fn whole_octets_are_messages()
    ensures { (text : List ℕ) → take (whole_octets text) text ≡ octets_of (cut text).items }
{}

/// What a text gives when it goes on.
pub fn goes_on()
    // The records of a text are the first of the longer text's.
    ensures records { (text more : List ℕ)
        → IsPrefix (records_of text) (records_of (text ++ more)) }
    // After a fault nothing changes.
    ensures fault { (text more : List ℕ) → ¬ IsOpen (stop_of text)
        → gives (text ++ more) ≡ gives text }
    // Without a fault the longer text is read on from the rest of the shorter, with the domains and
    // events of its messages. So it doesn't matter how a text is cut into pieces.
    ensures rest { (text more : List ℕ) → IsOpen (stop_of text)
        → gives (text ++ more) ≡ behind (gives text).messages
        (gives_after (known_of text) ((cut text).rest ++ more)) }
{}

/// It doesn't matter how a text is cut into pieces: two that are fed in turn do what they do as one, and
/// those after a fault change nothing.
pub fn pieces_are_one<K: Sink>()
    ensures both { (limit : Option ℕ) (text piece more : List ℕ) (r : Result (Unit {0}) SessionFault)
        (sink fed : K) (last : State) → FeedsInTurn K.seen limit text piece more r sink fed last
        → Feeds K.seen limit r text (piece ++ more) sink fed last }
    ensures fault { (limit : Option ℕ) (text piece more : List ℕ) (last : State) (before after : K)
        (f : SessionFault) → Feeds K.seen limit (Err f) text piece before after last
        → Feeds K.seen limit (Err f) text (piece ++ more) before after last }
{}

/// What [`drive`](crate::drive) says of a session whose sink gave no record back: the sink took the
/// records of what the source gave.
pub fn driven_is_given<S: Source, K: Sink>()
    ensures refused { DrivenIsGiven S.seen K.seen (λ last r. K.seen.refused last ≡ 0) }
    ensures fault { DrivenIsGiven S.seen K.seen (λ last r. r.fault ≢ Some SinkClosed) }
{}

/// A session without a fault has read all that its source held: whole messages, of which it has all
/// records.
pub fn no_fault_is_all<S: Source>()
    ensures { (limit : ℕ) (before after : S) (r : SessionReport) (records : List DataRecord)
        (text : List ℕ)
        → IsGiven S.seen limit before after r records → r.fault ≡ None
        → (S.seen before).text ≡ Some text → AreAllOf text records }
{}

/// The ledger of a domain balances: from before its first message to after its last, the exporter's
/// sequence number advanced, modulo 2^32, by the records that came (`count`), those that were lost
/// (`lost`) and those that are unaccounted for (`unaccounted`), if it never stepped backward (`backward`,
/// `late`) and no count has stopped at `u64::MAX`. Before the first message is its sequence number; after
/// the last is the last's sequence number and one more for each of its records.
///
/// So no record vanished between these two places without a number for it. What was sent before the
/// first message, or after the last, no sequence number shows; nor do those of an unknown set in the
/// last message. A loss of 2^31 records or more at once looks like a step backward, one of 2^32 like none.
pub fn ledger_balances()
    ensures { (ms : List Message) (domain : ℕ) → KeepsCount ms domain
        → Balances ms domain }
{}

/// The place after the messages that count is that of the first message with a fault, by the cutting of
/// the text into messages.
pub fn place_is_of_fault()
    ensures place { (text : List ℕ) → place_after (gives text).messages ≡ place_of_fault text }
    // What begins there, read after the messages before it, gives no message, and stops as the text
    // does: with the fault, if there is one.
    ensures begins { (text : List ℕ) → gives_after (known_of text)
        (drop (sum_by length (messages_before_fault text)) text)
        ≡ record { messages = []; stop = stop_of text } }
{}

/// The messages that count of a text leave no more templates in force than the limit allows.
pub fn templates_are_within()
    ensures within { (limit : ℕ) (text : List ℕ)
        → fields_in (known_within (Some limit) text) ≤ limit }
    // The messages that count are the first of those that the text gives without a limit.
    ensures first { (limit : Option ℕ) (text : List ℕ)
        → IsPrefix (given_within limit text).messages (gives text).messages }
{}

/// A session makes at most 2^40 reads, and asks for 65,536 octets with each of them. A message has at most
/// 65,535 octets, as its length has 16 bits (RFC 7011, section 3.1).
pub fn limits()
    ensures reads { READ_LIMIT ≡ 1099511627776 }
    ensures octets { READ_SIZE ≡ 65536 }
    ensures message { LONGEST_MESSAGE ≡ 65535 }
{}
