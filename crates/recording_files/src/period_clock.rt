//! When a file is finished.

/// Tells when the period of a file is over. Its counts stop at `u64::MAX`.
pub trait PeriodClock {
    ghost use Rattle.recording_files.specs.Periods.{ClockView, IsAnswer};

    /// What contracts see of it: how often it was asked, and how often it told that the period is over.
    ghost asked: { Self → ClockView };

    /// Whether the period is over that began when it last told so, or with the clock.
    fn is_over(&mut self) -> bool
        ensures { IsAnswer (asked self.old) result (asked self.new) };
}
