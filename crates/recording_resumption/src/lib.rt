//! What a restart needs to know of an earlier run's sessions over UDP: whether a peer's datagrams go on
//! after those of its last file, and the templates and the last message of each domain in it (RFC 7011,
//! sections 3.1 and 8).
#![tactic(auto)]

mod earlier;
mod earlier_domain;
mod earlier_reading;
mod earlier_session;
mod file_messages;
mod last_message;
pub mod laws;
mod leaving;

pub use earlier::Earlier;
pub use earlier_domain::{EarlierDomain, EarlierDomains, go_on, resumed};
pub use earlier_reading::EarlierReading;
pub use earlier_session::EarlierSession;
pub use last_message::LastMessage;
pub use leaving::domains_left;
