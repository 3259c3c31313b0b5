//! Laws of whole messages. Each is a function that does nothing, and its contract is the theorem.

ghost use Rattle.std.specs.Prelude.{[], ◌≡◌, ◌<◌, ℕ, All, List, Result, Ok};
ghost use Rattle.ipfix_wire.specs.Numbers.{IsOctets};
ghost use Rattle.ipfix_wire.specs.declared.header.Header.{Header};
ghost use Rattle.ipfix_message.specs.DataRecords.{least};
ghost use Rattle.ipfix_message.specs.Domains.{Decodes, History, Message, message_gives};
ghost use Rattle.ipfix_message.specs.Sets.{Set};
ghost use Rattle.ipfix_message.specs.TemplatesInForce.{IsInForce};
ghost use Rattle.ipfix_message.specs.declared.fault.MessageFault.{MessageFault};
ghost use Rattle.ipfix_message.specs.declared.message.Decoded.{Decoded};
ghost use Rattle.ipfix_message.specs.declared.record.Template.{Template};
ghost use Rattle.laws_messages.specs.WholeMessages.{Answers, Content, ForMessages, ForPositiveEvents, IsMessage, IsPositive, IsReadAs, Kept, all_events, behind};
ghost use Rattle.laws_messages.specs.WorkedExample.{example_octets, example_message};

/// The octets of a message are its header and, one after another to the end, its sets; those of a set
/// are its header, its records one after another, and padding (RFC 7011, section 3). What a message
/// gives is what is spelled so: no octet is left over, and none is read twice.
pub fn messages_are_spelled()
    ensures found { ForMessages (λ ds m x. message_gives ds m ≡ Ok x → IsReadAs ds m x) }
    ensures only { ForMessages (λ ds m x. IsReadAs ds m x → message_gives ds m ≡ Ok x) }
{}

/// What [`decode`](ipfix_message::Domains::decode) answers of a message, by its contract.
pub fn decode_reads_what_is_spelled()
    // What it gives is spelled so.
    ensures found { (ds : History) (m : List ℕ) (decoded : Decoded) (kept : Kept) → IsOctets m
        → Decodes (Ok decoded) kept (message_gives ds m)
        → (x : Message) × IsReadAs ds m x × Answers x (Ok decoded) kept }
    // What is spelled so is what it gives, unless memory runs out.
    ensures only { ForMessages (λ ds m x. (r : Result Decoded MessageFault) (kept : Kept)
        → IsReadAs ds m x → Decodes r kept (message_gives ds m) → Answers x r kept) }
{}

/// By each template that is in force a record has at least one octet, so that the end of a data set's
/// records is known.
pub fn templates_are_positive()
    // If the templates of a domain are so, they are after a message, too.
    ensures kept { ForPositiveEvents (λ es. (h : Header) (sets : List (Set × Content)) (m : List ℕ)
        → IsOctets m → IsMessage es h sets m → All IsPositive (behind es (all_events sets))) }
    ensures in_force { ForPositiveEvents (λ es. (t : Template)
        → IsInForce t es → 0 < least t.specs) }
{}

/// A message of 71 octets, with a template, one record of it, and three octets of padding, is read as it
/// is by hand.
pub fn example_is_read()
    ensures { IsReadAs [] example_octets example_message }
{}
