//! Collecting: sessions of IPFIX (RFC 7011) and the aggregate of their data records (RFC 7015),
//! in threads and on one.
#![tactic(auto)]

mod collected;
mod collecting;
mod context_fields;
mod context_sink;
mod dealing;
mod direct;
mod failure;
mod fault;
mod gate;
mod great_note;
mod judging;
pub mod laws;
mod link_sink;
mod lots;
mod note_sink;
mod rate_sink;
mod serial;
mod session_context;
mod session_sinks;
mod session_thread;
mod settling;
mod shortage;
mod threads;
mod without_rest;
mod worker;

pub use collected::{Collected, FilteredReport, MAX_SESSIONS, MAX_WORKERS, Pool, Serial};
pub use collecting::{collect_flat, refusal};
pub use context_fields::ContextFields;
pub use direct::{collect_direct, direct_refusal};
pub use failure::CollectFailure;
pub use fault::CollectFault;
pub use gate::{Gate, OpenGate};
pub use ipfix_session::READ_LIMIT;
pub use link_sink::LinkSink;
pub use serial::collect_serial;
pub use session_context::{Exporter, InContext, NOTHING_WANTED, SessionContext, no_context};
pub use without_rest::collect;
