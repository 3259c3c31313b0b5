//! Transport sessions of IPFIX (RFC 7011, section 3.1; RFC 5655, section 6): messages one after
//! another, and what they give up to the end or the first fault.
#![tactic(auto)]

mod account;
mod buffer;
mod driver;
mod fault;
mod intake;
pub mod laws;
mod ledger;
mod message_counter;
mod message_sink;
mod message_stream;
mod message_walk;
mod reader;
mod report;
mod script;
mod session;
mod session_limits;
mod sink;
mod source;
mod stop;
mod tally;

pub use account::{Account, lost_before};
pub use buffer::read_on;
pub use driver::{READ_LIMIT, READ_SIZE, drive, drive_in_full};
pub use fault::SessionFault;
pub use ledger::Ledger;
pub use message_counter::MessageCounter;
pub use message_sink::MessageSink;
pub use message_stream::LONGEST_MESSAGE;
pub use message_walk::whole_messages;
pub use reader::FromReader;
pub use report::{DomainBalance, DomainReport, FullReport, MessagePlace, SessionReport};
pub use script::ScriptSource;
pub use session::Session;
pub use session_limits::SessionLimits;
pub use sink::{Sink, VecSink};
pub use source::{ReadError, Source};
pub use tally::Tally;
