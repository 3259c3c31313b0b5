//! The lines of recordings: of files, of sessions and their losses, of peers that send datagrams, of threads, and of
//! what an earlier run left.
#![tactic(auto)]

mod datagram_lines;
mod file_lines;
mod finished;
pub mod laws;
mod notice_lines;
mod recovered_lines;
mod session_lines;
mod whole_lines;

pub use datagram_lines::{
    write_advance, write_not_received, write_order, write_peer_ended, write_refused_datagrams,
    write_resumed, write_system_drops, write_turned_away,
};
pub use file_lines::{write_finished, write_not_finished};
pub use notice_lines::{write_not_accepted, write_refused, write_threads};
pub use recovered_lines::write_outcome;
pub use session_lines::{write_peer_fault, write_peer_losses, write_peer_reason};
pub use whole_lines::WholeLines;
