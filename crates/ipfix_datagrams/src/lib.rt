//! IPFIX over UDP (RFC 7011, sections 8.1, 8.4 and 10.3): what the datagrams of a peer give, where the last
//! definition of a template counts and withdrawals are ignored, what is done in the peer's files before a datagram,
//! and which datagrams are ignored or refused; and how far sequence numbers advanced beside the data records that came
//! (section 3.1), in whatever order.
#![tactic(auto)]

mod again;
mod attempt;
mod changes;
mod data_sets;
mod defining;
mod definition_times;
mod definitions;
mod domain_advance;
mod known_templates;
pub mod laws;
mod moment;
mod reach;
mod reading;
mod resuming;
mod sequence_advances;
mod weighing;
mod withdrawal;
mod withdrawing;
mod withdrawn_template;
mod withdrawn_templates;
mod withholding;

pub use definition_times::{DefinitionTimes, Times};
pub use domain_advance::DomainAdvance;
pub use known_templates::{BarredIds, KnownTemplates};
pub use moment::Moment;
pub use reach::Reach;
pub use reading::{DatagramReading, Reading, read_datagram};
pub use sequence_advances::SequenceAdvances;
pub use weighing::Weights;
pub use withdrawal::{MOST_WITHDRAWN, append_withdrawals};
pub use withdrawn_template::WithdrawnTemplate;
pub use withdrawn_templates::{WithdrawnTemplates, keep_known};
pub use withholding::barred_late;
