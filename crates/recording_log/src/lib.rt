//! The lines that a run of the recorder writes, while it records: they wait for a thread of their own, which writes them, so
//! that a reader of standard error that sleeps holds nobody up.
#![tactic(auto)]

mod held_lines;
mod line_queue;
mod waiting_lines;

pub use held_lines::{HeldLines, MOST_HELD};
pub use line_queue::{LineQueue, LineSender, QueuedLines};
pub use waiting_lines::{MOST_LINES, MOST_OCTETS, WaitingLines};
