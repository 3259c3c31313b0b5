//! What is known of periods from one round to the next.

ghost use Rattle.std.specs.Prelude.{◌≡◌, ◌≤◌, OnErr, OnOk};
ghost use Rattle.period_tables.specs.Rounds.{AreNew, Begins, Settles, first_taken, is_settled, is_time as is_time_again};

use recording_names::Period;
use std::alloc::{AllocError, Global};
use std::collections::BTreeSet;

/// How many seconds after a round over all days the next one comes.
const ALL_DAYS: u64 = 600;

/// After how many seconds the lines that say what periods wait for are written again.
const WAITING: u64 = 60;

/// What is known of periods from one round to the next.
#[derive(Drop)]
pub struct Rounds {
    /// The beginnings of the periods that were looked at, and aren't again before the next round over all days.
    settled: BTreeSet<u64>,
    /// The seconds of the last round over all days, and of the last that wrote what periods wait for.
    all: Option<u64>,
    told: Option<u64>,
    /// Whether this round is one.
    takes_all: bool,
    tells_waiting: bool,
}

impl Rounds {
    /// There was none yet.
    pub fn new(alloc: Global) -> Self
        ensures { AreNew result }
    {
        Rounds {
            settled: BTreeSet::new(alloc),
            all: None,
            told: None,
            takes_all: true,
            tells_waiting: true,
        }
    }

    /// A round begins at this second.
    pub fn begin(&mut self, now: u64)
        ensures { Begins now self.old self.new }
    {
        self.takes_all = is_time(self.all, now, ALL_DAYS);
        if self.takes_all {
            self.settled.clear();
            self.all = Some(now);
        }
        self.tells_waiting = is_time(self.told, now, WAITING);
        if self.tells_waiting {
            self.told = Some(now);
        }
    }

    /// Of so many days, the first that this round takes: all, or the last two.
    pub fn first_day(&self, days: usize) -> usize
        ensures within { result ≤ days }
        ensures first { result ≡ first_taken self.now days }
    {
        if self.takes_all {
            0
        } else {
            days.saturating_sub(2)
        }
    }

    /// Whether this round takes all days.
    pub fn takes_all(&self) -> bool
        ensures { result ≡ self.now.takes_all }
    {
        self.takes_all
    }

    /// Whether this round writes what periods wait for.
    pub fn tells_waiting(&self) -> bool
        ensures { result ≡ self.now.tells_waiting }
    {
        self.tells_waiting
    }

    /// Whether a period isn't looked at in this round.
    pub fn has_settled(&self, period: Period) -> bool
        ensures { result ≡ is_settled self.now period.begins }
    {
        self.settled.contains(&period.begins)
    }

    /// A period isn't looked at again before the next round over all days. If memory runs out for that, nothing changes.
    pub fn settle(&mut self, period: Period) -> Result<(), AllocError>
        ensures ok { OnOk result (Settles period.begins self.old self.new) }
        ensures err { OnErr result (self.new ≡ self.old) }
    {
        self.settled.insert(period.begins)?;
        Ok(())
    }
}

// Whether it is time again, so many seconds after the last time.
fn is_time(last: Option<u64>, now: u64, pause: u64) -> bool
    ensures { result ≡ is_time_again last now pause }
{
    match last {
        Some(last) => now < last || now - last >= pause,
        None => true,
    }
}
