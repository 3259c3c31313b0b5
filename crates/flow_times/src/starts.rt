//! How many flows have which element of a start.

ghost use Rattle.std.specs.Prelude.{◌≡◌};
ghost use Rattle.flow_times.specs.Starts as starts;

use crate::element::TimeElement;

/// How many flows have which element of a start first; those that have none by the element of their duration. Each count
/// stops at `u64::MAX`.
#[derive(Clone, Copy, Debug, PartialEq, Eq)]
pub struct StartCounts {
    pub milliseconds: u64,
    pub seconds: u64,
    pub microseconds: u64,
    pub nanoseconds: u64,
    pub delta_microseconds: u64,
    pub sys_up_time: u64,
    pub duration_milliseconds: u64,
    pub duration_microseconds: u64,
}

/// None.
pub const NO_STARTS: StartCounts = StartCounts {
    milliseconds: 0,
    seconds: 0,
    microseconds: 0,
    nanoseconds: 0,
    delta_microseconds: 0,
    sys_up_time: 0,
    duration_milliseconds: 0,
    duration_microseconds: 0,
};

impl StartCounts {
    /// Counts a flow whose first element is this one. Those of ends aren't counted.
    pub fn count(&mut self, element: Option<TimeElement>)
        ensures { self.new ≡ starts.counted element self.old }
    {
        match element {
            Some(TimeElement::FlowStartMilliseconds) => {
                self.milliseconds = self.milliseconds.saturating_add(1);
            }
            Some(TimeElement::FlowStartSeconds) => {
                self.seconds = self.seconds.saturating_add(1);
            }
            Some(TimeElement::FlowStartMicroseconds) => {
                self.microseconds = self.microseconds.saturating_add(1);
            }
            Some(TimeElement::FlowStartNanoseconds) => {
                self.nanoseconds = self.nanoseconds.saturating_add(1);
            }
            Some(TimeElement::FlowStartDeltaMicroseconds) => {
                self.delta_microseconds = self.delta_microseconds.saturating_add(1);
            }
            Some(TimeElement::FlowStartSysUpTime) => {
                self.sys_up_time = self.sys_up_time.saturating_add(1);
            }
            Some(TimeElement::FlowDurationMilliseconds) => {
                self.duration_milliseconds = self.duration_milliseconds.saturating_add(1);
            }
            Some(TimeElement::FlowDurationMicroseconds) => {
                self.duration_microseconds = self.duration_microseconds.saturating_add(1);
            }
            Some(
                TimeElement::FlowEndMicroseconds
                | TimeElement::FlowEndNanoseconds
                | TimeElement::FlowEndDeltaMicroseconds
                | TimeElement::FlowEndSysUpTime,
            )
            | None => (),
        }
    }
}
