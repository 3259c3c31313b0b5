//! The period that a session's clock told last.

ghost use Rattle.std.specs.Prelude.{◌<◌};
ghost use Rattle.recording_names.specs.PeriodNames.{calendar_end};

use recording_names::Period;
use std::sync::atomic::Ordering::SeqCst;
use std::sync::atomic::{AtomicIn, Rule};

// The first seconds of periods stand before the end of the calendar.
struct InCalendar;

impl Rule for InCalendar {
    ghost invariant = { λ second. second < calendar_end };
}

/// The period that a session's clock told last. Its files see it, in whichever thread they are.
#[derive(Drop)]
pub(crate) struct ToldPeriod {
    begins: AtomicIn<InCalendar>,
}

impl ToldPeriod {
    pub(crate) fn new(period: Period) -> Self {
        ToldPeriod {
            begins: AtomicIn::new(period.begins),
        }
    }

    /// The one that was told last.
    pub(crate) fn get(&self) -> Period {
        Period {
            begins: self.begins.load(SeqCst),
        }
    }

    /// Tells another one.
    pub(crate) fn set(&self, period: Period) {
        self.begins.store(period.begins, SeqCst);
    }
}
