//! The text of a period's table in another format than IPFIX, made of the table in IPFIX and its receipt that stand, as `merge
//! --receipts` makes it of one part.

mod fault;
mod job;
mod making;
mod merged;
mod periods;
mod receipts;
mod taking;
mod telling;

pub use job::TextJob;
pub use periods::{Texts, take_text_of};
pub use receipts::receipt_in;
pub use taking::take_text;
pub use telling::{tell_text, write_text_path};
