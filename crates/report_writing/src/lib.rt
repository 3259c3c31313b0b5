//! What lines on standard error are written to, and the words that they share: whose session it is, why the system
//! refused something, names that a file gives, faults, and how a command ended.
#![tactic(auto)]

mod faults;
pub mod laws;
mod opening;
mod origin;
mod quoting;
mod reason;
mod status;
mod verbosity;
mod write_lines;

pub use faults::{write_fault, write_not_had};
pub use opening::{write_listening, write_not_had_because, write_opened};
pub use origin::{Origin, write_origin, write_session_start};
pub use quoting::{write_octets, write_quoted};
pub use reason::Reason;
pub use status::Status;
pub use verbosity::{NOTHING_MORE, Verbosity};
pub use write_lines::{CheckedWriter, WriteLines};
