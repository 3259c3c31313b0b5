//! Threads for sessions and workers, and what they promise to hand back.

mod joining;
mod running;
mod sessions;
mod workers;

pub use running::in_threads;
