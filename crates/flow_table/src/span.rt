//! The time of a flow.

ghost use Rattle.std.specs.Prelude.{◌≤◌, ◌<◌, ◌^◌};

/// From the first millisecond of a flow to its last, both since 1970-01-01 UTC.
#[derive(Clone, Copy)]
pub struct Span {
    pub start: u64,
    pub end: u64,
    ghost forward: { start ≤ end },
    ghost in_time: { end < 2 ^ 50 },
}
