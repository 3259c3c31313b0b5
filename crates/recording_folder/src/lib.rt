//! A folder of recordings: the lock on it, the files that sessions write into it, and
//! what is done at a start with those that an earlier run left.
#![tactic(auto)]

mod earlier_peers;
mod ended_file;
mod file_contents;
mod file_reading;
mod filed_session;
mod folder;
mod full_reports;
mod lack;
mod peer_files;
mod period_folders;
mod placing;
mod reading_back;
mod recovery;
mod session_files;
mod system_periods;
mod system_place;
mod told_period;
mod unfinished_file;

pub use earlier_peers::EarlierPeers;
pub use ended_file::{EndedFile, FailedFile, FileFinisher, FolderFinisher};
pub use file_contents::{FileContents, read_contents};
pub use folder::{Folder, FolderFault, open_folder, reopen_folder};
pub use peer_files::NamedFile;
pub use reading_back::read_back;
pub use recovery::recover;
pub use session_files::{FilesEnd, SessionFiles};
pub use system_periods::{LatestPeriod, SystemPeriods, second_now};
pub use system_place::{SystemPlace, SystemSession};
