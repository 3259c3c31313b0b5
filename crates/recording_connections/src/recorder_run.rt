//! What a run of the recorder is made of.

ghost use Rattle.std.specs.Prelude.{◌≡◌};
ghost use Rattle.recording_connections.specs.Serving.{limits_of};

use crate::shared_counts::SharedCounts;
use ipfix_session::{READ_LIMIT, SessionLimits};
use network_prefixes::PeerFilter;
use recording_folder::Folder;
use report_writing::Verbosity;
use std::alloc::{AllocError, Global};
use std::num::NonZeroU64;
use std::sync::Mutex;
use std::time::Duration;

/// What is recorded, and how.
#[derive(Drop)]
pub struct RecordOrder {
    /// How long the period of a file is, in seconds.
    pub every: NonZeroU64,
    /// How many sessions are recorded at once.
    pub sessions: usize,
    /// How long a connection may send nothing.
    pub idle: Option<Duration>,
    /// What the templates of a connection may count.
    pub templates: u64,
    /// Whether the beginning and the end of each session of a connection are told, too.
    pub verbosity: Verbosity,
    /// Which peers may send.
    pub filter: PeerFilter,
}

impl RecordOrder {
    /// How far the session of a connection goes.
    pub fn limits(&self) -> SessionLimits
        ensures { result ≡ limits_of self.now }
    {
        SessionLimits {
            reads: READ_LIMIT,
            templates: Some(self.templates),
        }
    }
}

/// A run of the recorder: what it has of the system, what it is asked for, and what its threads share.
pub struct RecorderRun<'a, R> {
    pub threads: &'a R,
    pub rt: &'a HostRuntime,
    pub alloc: Global,
    /// Where files are made.
    pub folder: &'a Folder,
    pub order: &'a RecordOrder,
    pub shared: &'a Mutex<SharedCounts>,
}

impl<'a, R> Copy for RecorderRun<'a, R> {}

impl<'a, R> Clone for RecorderRun<'a, R> {
    fn clone(&self) -> Result<Self, AllocError> {
        Ok(*self)
    }
}
