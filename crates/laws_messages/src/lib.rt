//! The law of whole messages: what their octets are, and what they give.
#![tactic(auto)]

mod laws;

pub use laws::{
    decode_reads_what_is_spelled, example_is_read, messages_are_spelled, templates_are_positive,
};
