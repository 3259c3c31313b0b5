//! What is noted of the times of a session's flows.

ghost use Rattle.std.specs.Prelude.{◌≡◌};
ghost use Rattle.flow_times.specs.Noted as noted;

use crate::element::{TimeElement, other_time, start_element};
use crate::starts::{NO_STARTS, StartCounts};
use crate::timed::is_timed;
use flow_table::Times;
use ipfix_message::DataRecord;

/// What is noted of the times of a session's flows.
#[derive(Clone, Copy, Debug, PartialEq, Eq)]
pub enum TimeNoting {
    Nothing,
    /// Which element says a time of them otherwise than in milliseconds or seconds, if none has its times so.
    Untimed,
    /// How many have which element of a start.
    Starts,
}

impl TimeNoting {
    /// What is noted under a plan that reads these times, and if more is to be told.
    pub fn under(times: Times, is_verbose: bool) -> Self
        ensures { result ≡ noted.noted_under times is_verbose }
    {
        match times {
            Times::Basic => TimeNoting::Untimed,
            Times::All if is_verbose => TimeNoting::Starts,
            Times::All => TimeNoting::Nothing,
        }
    }
}

/// What is told of the times of a session's flows.
#[derive(Clone, Copy, Debug, PartialEq, Eq)]
pub struct TimesReport {
    /// If none of the flows has a start and an end in milliseconds or seconds, the element of the first that has one by
    /// which it says a time otherwise.
    pub untimed: Option<TimeElement>,
    /// How many flows have which element of a start.
    pub starts: StartCounts,
}

/// What is noted of the times of a session's flows so far.
#[derive(Clone, Copy, Debug)]
pub struct TimeNotes {
    /// What is noted of the next ones.
    noting: TimeNoting,
    report: TimesReport,
}

/// That of which nothing is noted.
pub const NO_TIMES: TimesReport = TimesReport {
    untimed: None,
    starts: NO_STARTS,
};

impl TimeNotes {
    /// Those before a session's first record.
    pub fn new(noting: TimeNoting) -> Self
        ensures { result ≡ noted.first noting }
    {
        TimeNotes {
            noting,
            report: NO_TIMES,
        }
    }

    /// Notes a record. One with scope fields is no flow, and is passed over. Which element untimed flows have is of no
    /// interest any more after one with a start and an end in milliseconds or seconds.
    pub fn note(&mut self, item: &DataRecord)
        ensures { self.new ≡ noted.next self.old item.now }
    {
        if item.scope > 0 {
            return;
        }
        match self.noting {
            TimeNoting::Nothing => (),
            TimeNoting::Untimed => self.note_untimed(item),
            TimeNoting::Starts => self.report.starts.count(start_element(&item.fields)),
        }
    }

    // Notes a flow for as long as none is timed.
    fn note_untimed(&mut self, item: &DataRecord)
        ensures { self.new ≡ noted.next_untimed self.old item.now }
    {
        if is_timed(item) {
            *self = TimeNotes::new(TimeNoting::Nothing);
        } else if self.report.untimed.is_none() {
            self.report.untimed = other_time(&item.fields);
        }
    }

    /// What is told of them.
    pub fn report(&self) -> TimesReport
        ensures { result ≡ self.now.report }
    {
        self.report
    }
}
