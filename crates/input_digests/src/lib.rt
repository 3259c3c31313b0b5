//! SHA-256 digests (FIPS 180-4) of the messages of an input that count.
#![tactic(auto)]

mod front_digest;
mod hashed_source;
mod held_octets;
pub mod laws;

pub use front_digest::{FrontDigest, MOST_OPEN};
pub use hashed_source::{FinishedSource, HashedSource, Start};
