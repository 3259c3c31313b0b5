//! Once all threads have been joined: the links are settled, and the tables merged.

use crate::collected::FilteredReport;
use flow_link::Settled;

mod finishing;
mod gathering;
mod pairing;

pub use finishing::finish_all;

// What is known of the sessions, in order.
#[derive(Drop)]
struct Parts<S> {
    sessions: Vec<FilteredReport>,
    links: Vec<Settled>,
    sources: Vec<S>,
}
