//! What exporters tell of themselves in options records (RFC 7011, section 3.4.2): when the exporter was
//! started, and at which rate packets are sampled. A session's records are noted in turn, and what was told so
//! far is appended to each as fields.
#![tactic(auto)]

mod beside;
mod exporter_options;
mod fields;
mod init_times;
pub mod laws;
mod made_fields;
mod rate_fields;
mod sampling;
mod samplings;
mod telling;
mod told_fields;

pub use beside::{Beside, INIT_TIME_NUMBER, NOTHING_WANTED, SAMPLING_RATE, Wanted, known_beside};
pub use exporter_options::{ExporterOptions, MOST_KEPT};
pub use rate_fields::rate_of;
pub use sampling::{GREATEST_RATE, Rate, Sampling, sampling_in, selector_in};
pub use telling::{Told, told_by};
pub use told_fields::ToldFields;
