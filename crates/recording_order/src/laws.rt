//! Laws of the definitions. Each is a function that does nothing, and its contract is the theorem: a
//! call brings that to the proof of its caller.

ghost use Rattle.std.specs.Prelude.{◌≡◌, ◌++◌, ◌<◌, ℕ, true, List, All, Some, None, Contains, length};
ghost use Rattle.recording_order.specs.Alike.{SameButCounts, StayAlike};
ghost use Rattle.recording_order.specs.Arrivals.{Arrival, HaveSame};
ghost use Rattle.recording_order.specs.Bounds.{IsBounded};
ghost use Rattle.recording_order.specs.Counts.{with_counts_begun};
ghost use Rattle.recording_order.specs.DataSets.{has_data};
ghost use Rattle.recording_order.specs.Domains.{LeavesOthers};
ghost use Rattle.recording_order.specs.Doubles.{IsSameAsOne};
ghost use Rattle.recording_order.specs.InOrder.{AreInOrder};
ghost use Rattle.recording_order.specs.Releases.{AsksOnlyFrom, Came, Course, Event, HandsOnEach, Run, Says, StaysHandedOn, all_of, came, empty, finish, hand_on, released, released_of, run, run_of, settle, settle_late, step, take_run, tick};
ghost use Rattle.recording_order.specs.Windows.{ForDoubled, LeavesOneFewer, NoneWaits, OneHasLeft, WindowView, last_of, late_domain, least_in, next_of, offered};
ghost use Rattle.recording_order.specs.declared.offer.Offer.TheVariants.{First};
ghost use Rattle.recording_order.specs.declared.limits.TheConstants.{MOST_LAST, MOST_WAITING, ROOM};
ghost use Rattle.recording_order.specs.declared.numbering.TheConstants.{FARTHEST};

/// Every datagram that came was handed on, waits, or was doubled, and each once: whatever weights are given
/// to datagrams, those of the three add up to those of all that came.
pub fn each_once()
    ensures { (c : Course) → HaveSame (all_of (run_of c)) (came c.events) }
{}

/// At the peer's end nothing waits: what was released, and what was doubled, is all that came, each once.
pub fn nothing_waits_at_the_end()
    ensures waiting { (c : Course) → NoneWaits (finish c.says (run_of c)).window }
    ensures each_once { (c : Course)
        → HaveSame (released_of c ++ (run_of c).doubled) (came c.events) }
{}

/// A datagram is doubled only if it has a data set, and is the same, octet for octet, as one of its domain that
/// waits or is one of the last ones; and each of the last ones was handed on.
pub fn doubled_ones_came_already()
    ensures data { (w : WindowView) → ForDoubled w (λ domain octets. has_data octets ≡ true) }
    ensures same { (w : WindowView) → ForDoubled w (IsSameAsOne (w.waiting ++ w.last)) }
    ensures last { (c : Course) → All (Contains (run_of c).handed_on) (run_of c).window.last }
{}

/// Where each comes at the number that is due or before that, or where none is due, and none came already,
/// all are released as they came.
pub fn in_order_nothing_changes()
    ensures { (c : Course) → AreInOrder c → released_of c ≡ came c.events }
{}

/// With no seconds all are released as they came.
pub fn with_no_seconds_nothing_changes()
    ensures { (says : Says) (es : List Event) → released says 0 es ≡ came es }
{}

/// A datagram of one domain changes nothing of another: neither what was handed on of it, nor what waits, nor
/// what was doubled, nor its numbers. Only the room, and with it the last datagrams, are of the peer.
pub fn domains_stay_apart()
    ensures { (says : Says) (r : Run) (a : Arrival)
        → LeavesOthers a.header.domain r (step says r (Came a)) }
{}

/// Those that wait and the last ones take at most 65,536 octets together; of a domain at most 32 wait, and at
/// most 32 are among the last ones.
pub fn much_is_never_kept()
    ensures { (c : Course) → IsBounded (run_of c).window }
{}

/// The limits: 32 datagrams of a domain wait, 32 of it are the last ones, and all take 65,536 octets; a number
/// over 65,536 away begins anew.
pub fn limits()
    ensures waiting { MOST_WAITING ≡ 32 }
    ensures last { MOST_LAST ≡ 32 }
    ensures room { ROOM ≡ 65536 }
    ensures farthest { FARTHEST ≡ 65536 }
{}

/// A run depends only on what is said of the datagrams that were handed on in it, and what was handed on
/// stays.
pub fn only_what_was_handed_on_is_asked()
    ensures run { (seconds : ℕ) (es : List Event) → AsksOnlyFrom 0 (λ says. run says seconds es) }
    ensures step { (r : Run) (e : Event)
        → AsksOnlyFrom (length r.handed_on) (λ says. step says r e) }
    ensures finish { (r : Run) → AsksOnlyFrom (length r.handed_on) (λ says. finish says r) }
    ensures stepped { (says : Says) (r : Run) (e : Event) → StaysHandedOn r (step says r e) }
    ensures finished { (says : Says) (r : Run) → StaysHandedOn r (finish says r) }
{}

/// A run goes on one datagram after another: where one leaves, the rest is as from the run after it was
/// handed on, and where none does, all is done; so calls in a loop make the run.
pub fn runs_go_one_by_one()
    ensures first { (says : Says) (a : Arrival) (r : Run) (b : Arrival) (w : WindowView)
        → offered r.window a ≡ (First b, w)
        → take_run says a r ≡ take_run says a (hand_on says b w r) }
    ensures settled { (domain now : ℕ)
        → HandsOnEach (λ says. settle says domain now) (λ w. next_of w domain now) }
    ensures emptied { (domain : ℕ)
        → HandsOnEach (λ says. empty says domain) (λ w. least_in w domain) }
    ensures finished { HandsOnEach finish (λ w. last_of w w.waiting) }
    ensures ticked { (says : Says) (now : ℕ) (r : Run)
        → tick says now r ≡ settle_late (tick says now) says now r (late_domain r.window now) }
{}

/// Where a datagram leaves, one fewer waits; handing one on changes nothing of that. Where a domain is late,
/// fewer wait once it is settled, so a tick has at most as many rounds as datagrams wait. Where none waits,
/// no domain is late, and none leaves.
pub fn fewer_wait()
    ensures first { (w v : WindowView) (a b : Arrival)
        → offered w a ≡ (First b, v) → OneHasLeft w v }
    ensures next { (w : WindowView) (domain now : ℕ) → LeavesOneFewer w (next_of w domain now) }
    ensures least { (w : WindowView) (domain : ℕ) → LeavesOneFewer w (least_in w domain) }
    ensures last { (w : WindowView) → LeavesOneFewer w (last_of w w.waiting) }
    ensures handed_on { (says : Says) (a : Arrival) (w : WindowView) (r : Run)
        → (hand_on says a w r).window.waiting ≡ w.waiting }
    ensures late { (says : Says) (now domain : ℕ) (r : Run)
        → late_domain r.window now ≡ Some domain
        → length (settle says domain now r).window.waiting < length r.window.waiting }
    ensures none_late { (w : WindowView) (now : ℕ) → NoneWaits w → late_domain w now ≡ None }
    ensures none_next { (w : WindowView) (domain now : ℕ)
        → NoneWaits w → next_of w domain now ≡ None }
    ensures none_least { (w : WindowView) (domain : ℕ) → NoneWaits w → least_in w domain ≡ None }
{}

/// The counts change nothing of a run: two runs that have handed on the same, and whose windows are the same
/// but for their counts, go on alike. So it does where the counts were told, and have begun anew.
pub fn counts_change_nothing()
    ensures step { (says : Says) (e : Event) → StayAlike (λ r. step says r e) }
    ensures finish { (says : Says) → StayAlike (finish says) }
    ensures told { (w : WindowView) → SameButCounts (with_counts_begun w) w }
{}
