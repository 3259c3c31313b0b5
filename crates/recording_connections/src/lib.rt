//! Recording what exporters send over connections: where it is read from, and the threads that record it.
#![tactic(auto)]

mod connection;
mod connection_lines;
mod keepalive;
mod patient_reader;
mod place;
mod recorder_run;
mod running;
mod serving;
mod session_room;
mod shared_counts;
mod system;
mod unserved;

pub use connection::{Connection, ConnectionSource, NotAccepted, PatientListener};
pub use patient_reader::{Moments, PatientReader, SilenceLimits};
pub use place::{Recording, RecordingFiles, SessionPlace};
pub use recorder_run::{RecordOrder, RecorderRun};
pub use recording_folder::FolderFault;
pub use running::{ConnectionRecorder, record_connections};
pub use serving::{record_connection, write_session};
pub use session_room::SessionRoom;
pub use shared_counts::{RefusedPeers, SessionNumber, SharedCounts};
pub use system::{
    ConnectionFolder, OpenRecordings, finish_recordings, open_recordings, run_record,
};
