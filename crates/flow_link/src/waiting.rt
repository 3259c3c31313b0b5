//! Waiting for the other end of a link.

ghost use Rattle.std.specs.Prelude.{◌≡◌, ◌*◌, ◌≤◌};
ghost use Rattle.std.specs.Duration.{as_nanos};
ghost use Rattle.flow_link.specs.declared.waiting.TheConstants.{LONGEST_NAP, SHORTEST_NAP};

use std::sync::Wait;
use std::thread::Parker;
use std::time::Duration;

/// The shortest sleep, in microseconds.
const SHORTEST_NAP: u32 = 2;

/// The longest sleep, in microseconds.
const LONGEST_NAP: u32 = 1000;

/// How one end of a link waits for the other: it sleeps, for 1 ms at most. (One that spins before it
/// finds a single parcel, or room for one, and then the two take turns at each.) It learns how long is
/// usual: if no more than half of what the ring holds was moved since it slept, it sleeps twice as long,
/// and if as much as the ring holds was, half as long. While the other end moves nothing at all each
/// sleep is half as long again, and when it goes on, sleeps are as long as before.
#[derive(Clone, Copy, Debug)]
pub struct Patience {
    capacity: u64,
    moved: u64,
    usual: u32,
    nap: u32,
    ghost usual_not_too_short: { SHORTEST_NAP ≤ usual },
    ghost usual_not_too_long: { usual ≤ LONGEST_NAP },
    ghost not_too_short: { SHORTEST_NAP ≤ nap },
    ghost not_too_long: { nap ≤ LONGEST_NAP },
}

impl Patience {
    /// For a link of this capacity, in parcels.
    pub fn new(capacity: usize) -> Patience {
        Patience {
            capacity: capacity as u64,
            moved: 0,
            usual: SHORTEST_NAP,
            nap: SHORTEST_NAP,
        }
    }

    /// So many parcels were moved.
    pub fn moved(&mut self, parcels: u64) {
        self.moved = self.moved.saturating_add(parcels);
    }

    /// Waits a little before the next try, after one that moved nothing.
    pub fn wait(&mut self, rt: &impl Wait) {
        self.usual = self.next_usual();
        self.nap = self.next_nap();
        self.moved = 0;
        // (a thread that only gave way would be put off for a whole slice of time by busy ones)
        Parker::new().park_timeout(rt, in_micros(self.nap));
    }

    // How long a sleep usually is from now on, in microseconds. One after which nothing was moved says
    // nothing of it.
    fn next_usual(&self) -> u32
        ensures shortest { SHORTEST_NAP ≤ result }
        ensures longest { result ≤ LONGEST_NAP }
    {
        if self.moved == 0 {
            self.usual
        } else if self.moved <= self.capacity / 2 {
            self.usual.saturating_mul(2).min(LONGEST_NAP)
        } else if self.moved >= self.capacity {
            (self.usual / 2).max(SHORTEST_NAP)
        } else {
            self.usual
        }
    }

    // How long to sleep now, in microseconds.
    fn next_nap(&self) -> u32
        ensures shortest { SHORTEST_NAP ≤ result }
        ensures longest { result ≤ LONGEST_NAP }
    {
        if self.moved == 0 {
            self.nap.saturating_add(self.nap / 2).min(LONGEST_NAP)
        } else {
            self.usual
        }
    }
}

// A sleep of so many microseconds.
fn in_micros(nap: u32) -> Duration
    ensures { as_nanos result ≡ 1000 * nap }
{
    Duration::from_micros(u64::from(nap))
}
