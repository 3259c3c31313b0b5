//! The periods of the system's clock.

ghost use Rattle.std.specs.Prelude.{◌≡◌, ◌↔◌, ◌<◌, ℕ, max, IsTrue};
ghost use Rattle.recording_names.specs.PeriodNames.{period_start};

use crate::told_period::ToldPeriod;
use recording_files::PeriodClock;
use recording_names::{Period, period_of};
use std::alloc::AllocError;
use std::rt::Clock;
use std::sync::Arc;
use std::time::SystemTime;

/// The latest period that a clock has told.
#[derive(Clone, Copy, Debug)]
pub struct LatestPeriod {
    pub period: Period,
}

impl LatestPeriod {
    /// Takes the period that the clock tells now, and answers whether the one before is over. A clock that
    /// steps back begins no period: the latest goes on until the clock has come to its end again.
    pub fn take(&mut self, now: Period) -> bool
        ensures over { IsTrue result ↔ (self.old.period.begins < now.begins) }
        ensures latest { self.new.period.begins ≡ max self.old.period.begins now.begins }
    {
        if self.period.begins < now.begins {
            self.period = now;
            true
        } else {
            false
        }
    }
}

/// The clock of a session, or of several, over the system's. Their files see its latest period.
#[derive(Drop)]
pub struct SystemPeriods<'a, R: Clock> {
    rt: &'a R,
    every: u64,
    latest: LatestPeriod,
    told: Arc<ToldPeriod>,
    asked: u64,
    over: u64,
    ghost lasts: { 0 < every },
}

impl<'a, R: Clock> SystemPeriods<'a, R> {
    // A clock whose period is the one that it told to the files.
    pub(crate) fn new(rt: &'a R, every: u64, told: Arc<ToldPeriod>) -> Self
        requires { 0 < every }
        ensures unasked { (result.asked ≡ 0) × (result.over ≡ 0) }
        ensures every { result.every ≡ every }
    {
        let latest = LatestPeriod { period: told.get() };
        SystemPeriods {
            rt,
            every,
            latest,
            told,
            asked: 0,
            over: 0,
        }
    }

    // The period that it told last, as files see it.
    pub(crate) fn told(&self) -> Result<Arc<ToldPeriod>, AllocError> {
        self.told.clone()
    }
}

/// The period that the system's clock is in. A clock that tells no time, or one before 1970, is taken to
/// be at the beginning of 1970.
pub(crate) fn period_now<R: Clock>(rt: &R, every: u64) -> Period
    requires { 0 < every }
    ensures { (second : ℕ) × (result.begins ≡ period_start second every) }
{
    period_of(second_now(rt), every)
}

/// The second that the system's clock is in, counted from 1970; 0 if it tells no time, or one before that.
pub fn second_now<R: Clock>(rt: &R) -> u64 {
    let Ok(now) = SystemTime::now(rt) else {
        return 0;
    };
    match now.duration_since(SystemTime::UNIX_EPOCH) {
        Ok(since) => since.as_secs(),
        Err(_) => 0,
    }
}

impl<'a, R: Clock> PeriodClock for SystemPeriods<'a, R> {
    ghost use Rattle.std.specs.Prelude.{◌≡◌};
    ghost use Rattle.recording_files.specs.Periods.{IsAnswer};
    ghost use Rattle.recording_folder.specs.FiledSessions.{asked_of};

    ghost asked = { asked_of };

    fn is_over(&mut self) -> bool
        ensures answer { IsAnswer (asked_of self.old) result (asked_of self.new) }
        ensures every { self.new.every ≡ self.old.every }
    {
        let is_over = self.latest.take(period_now(self.rt, self.every));
        self.asked = self.asked.saturating_add(1);
        if is_over {
            self.told.set(self.latest.period);
            self.over = self.over.saturating_add(1);
        }
        is_over
    }
}
