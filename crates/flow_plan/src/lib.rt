//! The plan of an aggregation (RFC 7015, section 5) as a text that people write: a TOML document.
#![tactic(auto)]

mod blame;
mod error;
mod fault;
mod fields;
pub mod laws;
mod lines;
mod named;
mod reading;
mod repeats;

pub use error::{PlanKey, PlanPlace, PlanTextError};
pub use fault::PlanTextFault;
pub use fields::texts_in;
pub use named::key_element;
pub use reading::{read_document, read_members, read_plan, read_plan_with};
