//! Laws of the definitions. Each is a function that does nothing, and its contract is the theorem: a
//! call brings that to the proof of its caller.

ghost use Rattle.std.specs.Prelude.{◌≡◌, ◌<◌, ◌↔◌, ℕ, List, Some, None, Ok, IfErr, All, length};
ghost use Rattle.ipfix_wire.specs.Numbers.{IsOctets};
ghost use Rattle.ipfix_wire.specs.declared.specifier.Spec.{Spec};
ghost use Rattle.ipfix_message.specs.Alike.{SameMessage, IsPartOf, knows};
ghost use Rattle.ipfix_message.specs.Fields.{Field};
ghost use Rattle.ipfix_message.specs.DataRecords;
ghost use Rattle.ipfix_message.specs.DataRecords.{IsBody, HasOctets, records_of_body};
ghost use Rattle.ipfix_message.specs.Domains.{History, Message, message_gives};
ghost use Rattle.ipfix_wire.specs.InTurn.{IsLongest, Parts};
ghost use Rattle.ipfix_message.specs.TemplateRecords.{SpellsEvent, IsTemplateSet, IsPadding, FaultAt, events_of, fault_after_events};
ghost use Rattle.ipfix_message.specs.declared.template_record.TemplateKind.{TemplateKind};
ghost use Rattle.ipfix_message.specs.declared.template_record.Event.{Event};
ghost use Rattle.ipfix_message.specs.TemplatesInForce.{IsInForceFor, in_force};
ghost use Rattle.ipfix_message.specs.declared.record.Template.{Template};
ghost use Rattle.ipfix_message.specs.Sets.{AreSetsOf, Set, next_set, sets_of, fault_after_sets};
ghost use Rattle.ipfix_message.specs.declared.fault.MessageFault.{MessageFault};
ghost use Rattle.ipfix_message.specs.declared.message.TheConstants.{MAX_DOMAINS};

/// A body is read as the one list of records that it is the spelling of, up to padding.
pub fn one_body()
    ensures found { (specs : List Spec) (w : List ℕ) (rs : List (List Field)) → IsOctets w
        → records_of_body specs w ≡ Ok rs → IsBody specs rs w }
    ensures only { (specs : List Spec) (w : List ℕ) (rs : List (List Field))
        → 0 < DataRecords.least specs → IsBody specs rs w → records_of_body specs w ≡ Ok rs }
{}

/// The sets of a message are the longest list of sets whose spellings, one after another, begin what
/// follows the message's header (RFC 7011, section 3.3), and the fault of what is left is that of
/// reading one more set.
pub fn longest_sets()
    ensures found { (w : List ℕ) → IsOctets w → AreSetsOf (sets_of w) w }
    ensures only { (w : List ℕ) (sets : Parts Set) → IsOctets w
        → AreSetsOf sets w → sets_of w ≡ sets }
    ensures left { (w : List ℕ) → 0 < length w
        → IfErr (next_set w) (λ f. fault_after_sets w ≡ Some f) }
{}

/// The template records in the body of a template set are the longest list of definitions and
/// withdrawals whose records, one after another, begin the body (RFC 7011, sections 3.4.1, 3.4.2 and
/// 8.1). Where records and padding are the whole body there is no fault, and otherwise the fault is
/// the first that fits what follows the last record.
pub fn longest_events()
    ensures found { (kind : TemplateKind) (w : List ℕ) → IsOctets w
        → IsLongest (SpellsEvent kind) (events_of kind w).items (events_of kind w).rest w }
    ensures only { (kind : TemplateKind) (w rest : List ℕ) (events : List Event) → IsOctets w
        → IsLongest (SpellsEvent kind) events rest w
        → events_of kind w ≡ record { items = events; rest = rest } }
    ensures whole { (kind : TemplateKind) (w : List ℕ) (events : List Event) → IsOctets w
        → IsTemplateSet kind events w ↔ (((events_of kind w).items ≡ events)
        × (fault_after_events kind (events_of kind w).rest ≡ None)) }
    ensures fault { (kind : TemplateKind) (rest : List ℕ) (f : MessageFault) → IsOctets rest
        → (fault_after_events kind rest ≡ Some f) ↔ ((¬ IsPadding rest) × FaultAt kind rest f) }
{}

/// The template in force for an id is the last one that was defined for it, unless a later
/// withdrawal of that id or of all templates ended it (RFC 7011, section 8.1).
pub fn last_definition()
    ensures { (es : List Event) (id : ℕ) (t : Template)
        → (in_force es id ≡ Some t) ↔ IsInForceFor id t es }
{}

/// The fields of a message's records have octets, if the message has: each number of theirs is below
/// 256 if each of the message's is.
pub fn records_of_octets()
    ensures { (ds : History) (m : List ℕ) (x : Message) → IsOctets m
        → message_gives ds m ≡ Ok x → All HasOctets x.decoding.records }
{}

/// A session has at most 1,024 observation domains.
pub fn limits()
    ensures { MAX_DOMAINS ≡ 1024 }
{}

/// What a message gives depends on the messages before it only through the templates in force: if the
/// domains of one history are some of another's, with the same templates in force in each, then a
/// message of a domain that both know, or neither, gives the same after both, and so do those after it.
pub fn templates_are_enough()
    ensures { (fs ds : History) (m : List ℕ) (x : Message) → IsPartOf fs ds
        → message_gives ds m ≡ Ok x → knows fs x.header.domain ≡ knows ds x.header.domain
        → (y : Message) × (message_gives fs m ≡ Ok y) × SameMessage x y
        × IsPartOf y.domains x.domains }
{}
