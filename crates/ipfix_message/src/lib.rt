//! IPFIX messages (RFC 7011): templates, data records, and the decoding of the messages of a
//! transport session.
#![tactic(auto)]

mod apart;
mod appended_fields;
mod data_check;
mod data_set;
mod domains;
mod fault;
mod field_block;
mod field_iter;
mod field_run;
mod field_value;
mod in_force;
mod laid_out;
pub mod laws;
mod layout;
mod message;
mod own_fields;
mod passed_over;
mod places;
mod record;
mod set_body;
mod sets;
mod shared_fields;
mod short_fields;
mod stamp;
mod template_in_force;
mod template_limit;
mod template_message;
mod template_record;
mod written_template;

pub use domains::Domains;
pub use fault::MessageFault;
pub use field_block::Fields;
pub use field_iter::{FieldIter, FieldRef};
pub use in_force::Templates;
pub use message::{Decoded, header_of};
pub use passed_over::PassedOver;
pub use record::{DataRecord, Specs, Template};
pub use sets::next_set;
pub use shared_fields::SharedFields;
pub use stamp::Stamp;
pub use template_in_force::{Definition, TemplateInForce, is_same_template};
pub use template_limit::{DOMAIN_FIELDS, TEMPLATE_FIELDS, count_of};
pub use template_message::append_template_message;
pub use template_record::{Event, LONGEST_BODY, TEMPLATE_HEADER_LENGTH, TemplateKind, event_of};
pub use written_template::append_template;
