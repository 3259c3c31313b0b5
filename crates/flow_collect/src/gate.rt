//! A place where a test may hold the threads.

/// Called before each try to take, with the parcels taken by that worker so far, and once before
/// each parcel is sent, with the parcels sent by that session so far. It may wait. Both counts stop
/// at `u64::MAX`.
pub trait Gate {
    fn before_take(&self, worker: usize, taken: u64);

    fn before_send(&self, session: usize, sent: u64);
}

/// A gate that holds nobody.
#[derive(Clone, Copy, Debug)]
pub struct OpenGate;

impl Gate for OpenGate {
    fn before_take(&self, _worker: usize, _taken: u64) {}

    fn before_send(&self, _session: usize, _sent: u64) {}
}
