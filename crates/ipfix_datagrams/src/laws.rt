//! Laws of the definitions. Each is a function that does nothing, and its contract is the theorem: a
//! call brings that to the proof of its caller.

ghost use Rattle.std.specs.Prelude.{◌≡◌, ◌+◌, ◌-◌, ◌∷◌, List, sum_by};
ghost use Rattle.ipfix_message.specs.Domains.{Message};
ghost use Rattle.ipfix_session.specs.Ledger.{count_in};
ghost use Rattle.ipfix_datagrams.specs.Advances.{advance_of, came_of, missing_of};
ghost use Rattle.ipfix_datagrams.specs.Streams.{Placed, Sent, AreInOrder, AreNear, AreSent, Doubling, Swapping, advance_in, came, came_in, furthest_place, not_come, sent};

/// Where the exporter's numbers are right, the advance is from the place of the first message that came to
/// the furthest place after any, if each came less than half of all sequence numbers off: late ones
/// change nothing, however many records were sent in all.
pub fn advance_is_to_the_furthest()
    ensures { (p : Placed) (ps : List Placed) → AreNear p.place (p ∷ ps)
        → advance_in (p ∷ ps) ≡ furthest_place p.place (p ∷ ps) - p.place }
{}

/// Where all messages came in their order, the advance is the records that came, and none is missing.
pub fn all_came()
    ensures advance { (ms : List Message) → AreInOrder ms → advance_of ms ≡ came_of ms }
    ensures missing { (ms : List Message) → AreInOrder ms → missing_of ms ≡ 0 }
{}

/// Where the first and the last message came, and some between them didn't, the advance is all records that
/// were sent, and those of the messages that didn't come are missing; if all are less than half of all
/// sequence numbers.
pub fn missing_is_the_gaps()
    ensures advance { (es : Sent) → AreSent es → advance_of (came es) ≡ sum_by count_in (sent es) }
    ensures missing { (es : Sent) → AreSent es → missing_of (came es) ≡ sum_by count_in (not_come es) }
{}

/// It doesn't matter in which order those after the first came.
pub fn order_does_not_matter()
    ensures advance { (s : Swapping) → advance_in s.one ≡ advance_in s.other }
    ensures came { (s : Swapping) → came_in s.one ≡ came_in s.other }
{}

/// One that came twice counts twice among the records that came, and changes no advance.
pub fn doubles_are_counted()
    ensures advance { (d : Doubling) → advance_in d.twice ≡ advance_in d.once }
    ensures came { (d : Doubling) → came_in d.twice ≡ came_in d.once + count_in d.double.message }
{}
