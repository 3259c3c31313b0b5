//! The commands `collectd record` and `collectd finish`: the words that they are told, and the threads that record
//! connections and datagrams side by side.
#![tactic(auto)]

mod beginning;
mod descriptors;
mod finishing;
mod peer_prefixes;
mod recording;
mod system;
mod watching;

pub use finishing::finish;
pub use recording::record;
pub use system::{Sockets, run_recorder};
