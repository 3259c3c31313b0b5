//! How exactly the system wakes threads that sleep.

use std::fs;

/// Linux's file for how many nanoseconds late a thread may be woken: 50,000 if nothing is written to it.
/// A thread hands on to those that it starts what holds for itself.
const TIMER_SLACK: &str = "/proc/self/timerslack_ns";

/// Asks the system to wake sleeping threads within a microsecond of their time, since a session and its
/// worker wait for each other by short sleeps. If the system can't, they sleep longer.
pub fn ask_for_short_sleeps(rt: &HostRuntime) {
    let _ = fs::write(rt, TIMER_SLACK, "1000");
}
