//! What is known after a file.

use crate::elements::Elements;

/// What is known after a file.
#[derive(Drop)]
pub struct Added {
    pub elements: Elements,
    /// The line of the first row with a type that is not known, whose fields are octets.
    pub unknown_type: Option<u64>,
}
