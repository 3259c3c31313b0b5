//! A peer that sends over UDP in files, each of which can be read by itself as a session: its datagrams as
//! they came. In front of a datagram are the messages that a session of a connection needs there: they
//! withdraw the templates that the datagram replaces, and define those again that a withdrawal ended in the
//! files and that the datagram has data sets of.
#![tactic(auto)]

mod beginning;
mod filing;
mod fronts;
pub mod laws;
mod peer_answer;
mod peer_recorder;
mod peer_session;
mod places;
mod resumption;

pub use beginning::{Beginning, begins_peer};
pub use peer_answer::PeerAnswer;
pub use peer_recorder::PeerRecorder;
pub use peer_session::PeerSession;
pub use resumption::Resumption;
