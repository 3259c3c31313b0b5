//! A session in several files, each of which can be read by itself (RFC 5655): its messages as they came,
//! at the head of a file the options records that last told when the exporter was started or how it samples,
//! and before the first message of a domain that an earlier file has the templates in force there. A file is
//! finished where a clock tells that its period is over.
#![tactic(auto)]

mod counting;
mod file_report;
mod file_series;
mod finished_files;
mod gathering;
mod head;
mod kept_options;
pub mod laws;
mod memory_files;
mod message_count;
mod period_clock;
mod preamble;
mod reads;
mod record_fault;
mod record_octets;
mod recorded_session;
mod recorder;
mod recording;
mod script_clock;
mod session_counts;
mod ticking_source;

pub use counting::count_all;
pub use file_report::FileReport;
pub use file_series::{FileSeries, NotWritten};
pub use finished_files::{FileEnd, FinishedFiles, Recovered};
pub use memory_files::MemoryFiles;
pub use message_count::MessageCount;
pub use period_clock::PeriodClock;
pub use record_fault::RecordFault;
pub use recorded_session::RecordedSession;
pub use recorder::Recorder;
pub use recording::record;
pub use script_clock::ScriptClock;
pub use session_counts::SessionCounts;
pub use ticking_source::TickingSource;
