//! What a session needs of the system to be recorded.

ghost use Rattle.std.specs.Prelude.{◌≡◌, ◌<◌, IfOk};
ghost use Rattle.std.specs.Arc.{arc_value};
ghost use Rattle.recording_folder.specs.FiledSessions.{BeginsWith, IsNamed};

use crate::ended_file::{FileFinisher, FolderFinisher};
use crate::filed_session::FiledSession;
use crate::folder::Folder;
use crate::session_files::SessionFiles;
use crate::system_periods::{SystemPeriods, period_now};
use crate::told_period::ToldPeriod;
use recording_files::FinishedFiles;
use recording_names::{Transport, session_name};
use std::alloc::{AllocError, Global};
use std::fs::Files;
use std::net::SocketAddr;
use std::rt::Clock;
use std::sync::Arc;

/// A folder of recordings and the length of its periods: makes for each session its files and its clock.
#[derive(Drop)]
pub struct SystemPlace<'a, R> {
    rt: &'a R,
    folder: &'a Folder,
    /// How many seconds a period has.
    pub every: u64,
    ghost lasts: { 0 < every },
}

/// The files and the clock of a session.
#[derive(Drop)]
pub struct SystemSession<'a, R: Files + Clock, K> {
    pub files: SessionFiles<'a, R, K>,
    pub periods: SystemPeriods<'a, R>,
}

impl<'a, R: Files + Clock> SystemPlace<'a, R> {
    /// Periods have `every` seconds.
    pub fn new(rt: &'a R, folder: &'a Folder, every: u64) -> Self
        requires { 0 < every }
        ensures { result.every ≡ every }
    {
        SystemPlace { rt, folder, every }
    }

    /// What finishes files of the folder at once, and tells them.
    pub fn finisher<L: FinishedFiles>(&self, alloc: Global, log: L) -> FolderFinisher<'a, R, L> {
        FolderFinisher::new(self.rt, alloc, self.folder, log)
    }

    /// The files of a session, of which none is there yet and each is finished at once, and its clock, whose period
    /// begins now. Sessions of one run are distinguished by their numbers.
    pub fn session<L: FinishedFiles>(
        &self,
        alloc: Global,
        peer: SocketAddr,
        transport: Transport,
        number: u64,
        log: L,
    ) -> Result<SystemSession<'a, R, FolderFinisher<'a, R, L>>, AllocError>
        ensures session { IfOk result (λ s. IsNamed (arc_value s.files.session) peer transport number) }
        ensures failed { IfOk result (λ s. s.files.failed ≡ 0) }
        ensures periods { IfOk result (λ s. BeginsWith self.now.every s.periods) }
    {
        let periods = self.periods(alloc)?;
        let finisher = self.finisher(alloc, log);
        let files = self.files(alloc, peer, transport, number, &periods, finisher)?;
        Ok(SystemSession { files, periods })
    }

    /// A clock whose period begins now.
    pub fn periods(&self, alloc: Global) -> Result<SystemPeriods<'a, R>, AllocError>
        ensures { IfOk result (BeginsWith self.now.every) }
    {
        let told = Arc::new(alloc, ToldPeriod::new(period_now(self.rt, self.every)))?;
        Ok(SystemPeriods::new(self.rt, self.every, told))
    }

    /// The files of a session, of which none is there yet. Each is made in the period that the clock told last,
    /// which several sessions may share.
    pub fn files<K: FileFinisher<R::File>>(
        &self,
        alloc: Global,
        peer: SocketAddr,
        transport: Transport,
        number: u64,
        periods: &SystemPeriods<'a, R>,
        finisher: K,
    ) -> Result<SessionFiles<'a, R, K>, AllocError>
        ensures session { IfOk result (λ files. IsNamed (arc_value files.session) peer transport number) }
        ensures failed { IfOk result (λ files. files.failed ≡ 0) }
    {
        let name = session_name(alloc, peer, transport, number)?;
        let session = Arc::new(alloc, FiledSession::new(name))?;
        let told = periods.told()?;
        Ok(SessionFiles::new(self.rt, alloc, self.folder, session, told, finisher))
    }
}
