//! Adding a flow to the totals of its intervals.

ghost use Rattle.std.specs.Prelude.{◌≡◌, ◌≤◌, ◌<◌, ◌+◌, ◌∷◌, ℕ, List, Some, OnOk, length, if◌then◌else◌};
ghost use Rattle.flow_table.specs.Flows.{AddsRead, HasIntervals, LargeAtLast, WithKey, read_at, read_part};
ghost use Rattle.flow_table.specs.Plans.{IsPlan};
ghost use Rattle.flow_table.specs.Rows.{AreRowsOf, AreSmall, StaySmall};

use crate::flow::Flow;
use crate::plan::Plan;
use crate::rows::Rows;
use crate::sharing::read_shares;
use crate::table_fault::TableFault;

/// Room for what is read of a record, so that reading allocates nothing for each of them.
#[derive(Drop)]
pub struct Room {
    /// The words of the key.
    pub words: Vec<u64>,
    pub counters: Vec<u64>,
    pub shares: Vec<u64>,
    /// The first interval of the flow before.
    pub interval: u64,
    /// The interval that was added to last, if there was one in the record or the merge at hand. After `SumTooLarge`
    /// it is that of a row that is too large, whose key has the words.
    pub last: Option<u64>,
}

impl Room {
    /// Takes the first of the words, if there is one, as the interval that was added to last.
    pub fn take_interval(&mut self)
        ensures last { (w : ℕ) (ws : List ℕ) → self.old.words.items ≡ w ∷ ws
            → self.new.last ≡ Some w }
        ensures words { (w : ℕ) (ws : List ℕ) → self.old.words.items ≡ w ∷ ws
            → self.new.words.items ≡ ws }
    {
        if !self.words.is_empty() {
            self.last = Some(self.words.remove(0));
        }
    }
}

// One of two slices.
fn pick<'a>(is_first: bool, first: &'a [u64], second: &'a [u64]) -> &'a [u64]
    ensures { result.now ≡ (if is_first then first.now else second.now) }
{
    if is_first { first } else { second }
}

// Adds the shares of a flow, whose key and counters were read, at one of its intervals to the totals of
// its key there.
fn add_at(
    plan: &Plan,
    rows: &mut Rows,
    flow: Flow,
    interval: u64,
    room: &mut Room,
) -> Result<(), TableFault>
    requires sound { IsPlan plan.now }
    requires intervals { HasIntervals plan.now flow }
    requires within { (flow.first ≤ interval) × (interval < flow.first + flow.count) }
    requires counters { length room.old.counters.items ≡ length plan.now.counters }
    ensures rows { WithKey plan.now rows.old room.old (λ key. AreRowsOf plan.now rows.new) }
    ensures ok { AddsRead (read_at interval) result plan.now rows.old flow room.old rows.new }
    ensures fits { OnOk result (AreSmall plan.now rows.new) }
    ensures large { LargeAtLast (read_at interval) result plan.now rows.old flow room.old room.new }
    ensures at { room.new.last ≡ Some interval }
    // What was read of the flow stays.
    ensures words { room.new.words.items ≡ room.old.words.items }
    ensures counters { room.new.counters.items ≡ room.old.counters.items }
{
    room.last = Some(interval);
    read_shares(plan, flow, &room.counters, interval, &mut room.shares)?;
    let sums = pick(flow.count == 1, &room.counters, &room.shares);
    rows.add(interval, &room.words, 1, sums)
}

/// Adds the shares of a flow, whose key and counters were read, to the totals of its key at all
/// intervals that it contributes to.
pub fn add_flow(plan: &Plan, rows: &mut Rows, flow: Flow, room: &mut Room) -> Result<(), TableFault>
    requires sound { IsPlan plan.now }
    requires intervals { HasIntervals plan.now flow }
    requires counters { length room.old.counters.items ≡ length plan.now.counters }
    ensures rows { WithKey plan.now rows.old room.old (λ key. AreRowsOf plan.now rows.new) }
    ensures ok { AddsRead read_part result plan.now rows.old flow room.old rows.new }
    ensures fits { OnOk result (StaySmall plan.now rows.old rows.new) }
    ensures large { LargeAtLast read_part result plan.now rows.old flow room.old room.new }
    ensures words { room.new.words.items ≡ room.old.words.items }
{
    room.interval = flow.first;
    for interval in flow.first..flow.first + flow.count {
        add_at(plan, rows, flow, interval, room)?;
    }
    Ok(())
}
