//! Why a text was not read as a receipt.

use thiserror::Error;

/// Why a text was not read as a receipt.
#[derive(Clone, Copy, Debug, PartialEq, Eq, Error)]
pub enum ReceiptFault {
    #[error("out of memory")]
    OutOfMemory,
    /// The text is not what [`write_receipt`](crate::write_receipt) writes of any receipt.
    #[error("the text is not a receipt")]
    NotAReceipt,
}
