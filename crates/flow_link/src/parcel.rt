//! What goes over a link.

use ipfix_message::DataRecord;

/// A data record, or the end of its session.
#[derive(Debug, Drop)]
pub enum Parcel {
    /// A data record, in the session's order.
    Item(DataRecord),
    /// The session has ended. Nothing is sent after it.
    Last,
}
