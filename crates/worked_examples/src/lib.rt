//! The worked examples of `tests/EXAMPLES.md` as octets, for the tests of the other crates: each
//! message under its name, with a comment before each of its parts. Numbers are written with the
//! highest octet first, and export times are 1700000000 (`65 53 f1 00`). And the writer that fails, which
//! several of these tests write to.
#![tactic(auto)]

mod building;
pub mod faults;
pub mod flows;
pub mod recordings;
pub mod sequences;
pub mod templates;
pub mod values;
mod writers;

pub use building::{Flow, header, message_of_flows, text_of};
pub use writers::FailingWriter;
