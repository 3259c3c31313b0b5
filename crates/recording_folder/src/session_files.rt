//! The files of a session in a folder of recordings.

ghost use Rattle.std.specs.Prelude.{◌≡◌, IfErr, IfOk, IsSome, None, OnErr};
ghost use Rattle.std.specs.Arc.{arc_value};
ghost use Rattle.std.specs.Option.{ForSome};
ghost use Rattle.std.specs.String.{string_bytes};
ghost use Rattle.recording_files.specs.Files.{Appends, FilesView, Turns};
ghost use Rattle.recording_folder.specs.EndedFiles.{EndsFile, EndsLast, IsGivenBack, IsOfSession, TurnsFile, hidden};
ghost use Rattle.recording_folder.specs.Paths.{IsUnfinishedPath};

use crate::ended_file::{EndedFile, FailedFile, FileFinisher};
use crate::filed_session::FiledSession;
use crate::folder::{Folder, path_in};
use crate::lack::lacks_descriptors;
use crate::told_period::ToldPeriod;
use crate::unfinished_file::UnfinishedFile;
use recording_files::{FileReport, FileSeries, NotWritten};
use recording_names::unfinished_name;
use report_writing::Reason;
use std::alloc::Global;
use std::fs::{Files, OpenOptions};
use std::io::{self, ErrorKind};
use std::sync::Arc;

/// The files of a session. The one that isn't finished is made when the first octets come, in the period
/// that the session's clock told last. What stands in files isn't seen by contracts.
#[derive(Drop)]
pub struct SessionFiles<'a, R: Files, K> {
    rt: &'a R,
    alloc: Global,
    folder: &'a Folder,
    session: Arc<FiledSession>,
    period: Arc<ToldPeriod>,
    unfinished: Option<UnfinishedFile<R::File>>,
    finisher: K,
    failed: u64,
    reason: Option<Reason>,
    ghost of_the_session: { ForSome unfinished (λ file. IsOfSession file (arc_value session)) },
}

/// How the files of a session ended.
#[derive(Clone, Copy, Debug, PartialEq, Eq)]
pub struct FilesEnd {
    /// Whether the last file was finished, or went away, and so were those before it.
    pub finished: Result<(), NotWritten>,
    /// Why the last call failed that did, if one did.
    pub reason: Option<Reason>,
}

impl<'a, R: Files, K: FileFinisher<R::File>> SessionFiles<'a, R, K> {
    pub(crate) fn new(
        rt: &'a R,
        alloc: Global,
        folder: &'a Folder,
        session: Arc<FiledSession>,
        period: Arc<ToldPeriod>,
        finisher: K,
    ) -> Self
        ensures session { result.session ≡ session }
        ensures failed { (result.failed ≡ 0) × (result.reason ≡ None) }
        ensures unfinished { result.unfinished ≡ None }
    {
        SessionFiles {
            rt,
            alloc,
            folder,
            session,
            period,
            unfinished: None,
            finisher,
            failed: 0,
            reason: None,
        }
    }

    /// Finishes the last file, if there is one, or has it finished; if it is empty it goes away. Where it isn't finished
    /// it, or an earlier one, stays among those that aren't finished.
    pub fn finish(mut self, last: &FileReport) -> FilesEnd
        ensures { EndsLast K.finishes self.entry.unfinished self.entry.reason last.now result
            self.entry.finisher }
    {
        let finished = self.end_file(last, false);
        match self.session.failure() {
            Some(reason) => FilesEnd {
                finished: Err(NotWritten),
                reason: Some(reason),
            },
            None => FilesEnd {
                finished,
                reason: self.reason,
            },
        }
    }

    // Writes octets to the file that isn't finished, unless an earlier one could not be finished. An `Err` says why.
    fn try_to_write(&mut self, octets: &[u8]) -> Result<(), Reason>
        ensures failed { self.new.failed ≡ self.old.failed }
        ensures session { self.new.session ≡ self.old.session }
    {
        if let Some(reason) = self.session.failure() {
            return Err(reason);
        }
        match self.write(octets) {
            Ok(()) => Ok(()),
            Err(error) => Err(Reason::of(&error)),
        }
    }

    // Writes octets to the file that isn't finished.
    fn write(&mut self, octets: &[u8]) -> io::Result<()>
        ensures failed { self.new.failed ≡ self.old.failed }
        ensures session { self.new.session ≡ self.old.session }
    {
        let mut unfinished = match self.unfinished.take() {
            Some(unfinished) => unfinished,
            None => self.make_file()?,
        };
        let written = unfinished.append(octets);
        self.unfinished = Some(unfinished);
        written
    }

    // Makes a file. Where no descriptor is free those files are finished first that wait for it: they are open.
    fn make_file(&mut self) -> io::Result<UnfinishedFile<R::File>>
        ensures failed { self.new.failed ≡ self.old.failed }
        ensures session { self.new.session ≡ self.old.session }
        ensures unfinished { self.new.unfinished ≡ self.old.unfinished }
        ensures of_the_session { IfOk result (λ file. IsOfSession file (arc_value self.old.session)) }
    {
        for _ in 0..u64::MAX {
            match self.try_to_make_file() {
                Err(error) if lacks_descriptors(&error) => {
                    if !self.finisher.finish_queued() {
                        return Err(error);
                    }
                }
                made => return made,
            }
        }
        Err(io::Error::from(ErrorKind::Interrupted))
    }

    // Makes a file in the period that the clock told last, under the name of that and of its session.
    fn try_to_make_file(&self) -> io::Result<UnfinishedFile<R::File>>
        ensures path { IfOk result (λ file. IsUnfinishedPath self.now.folder.now file.period
            (string_bytes (arc_value self.now.session).name) (string_bytes file.path)) }
        ensures of_the_session { IfOk result (λ file. IsOfSession file (arc_value self.now.session)) }
    {
        let period = self.period.get();
        let name = unfinished_name(self.alloc, period, self.session.name())?;
        let path = path_in(self.alloc, self.folder.unfinished(), name.as_str())?;
        let session = self.session.clone()?;
        let file = OpenOptions::new()
            .append(true)
            .create_new(true)
            .open(self.rt, path.as_str())?;
        Ok(UnfinishedFile::new(file, path, period, session))
    }

    // Ends the file that isn't finished yet, if there is one, which has this report. If it can't be finished it
    // stays.
    fn end_file(&mut self, report: &FileReport, has_next: bool) -> Result<(), NotWritten>
        ensures failed { self.new.failed ≡ self.old.failed }
        ensures session { self.new.session ≡ self.old.session }
        ensures ends { EndsFile K.finishes self.old.unfinished report.now result self.old.reason
            self.new.reason self.old.finisher self.new.finisher }
    {
        let Some(unfinished) = self.unfinished.take() else {
            return Ok(());
        };
        let gives_name = has_next && unfinished.period == self.period.get();
        let ended = EndedFile {
            unfinished,
            report: *report,
        };
        let finished = self.finish_or_queue(ended, gives_name);
        match finished {
            Ok(()) => Ok(()),
            Err(FailedFile { ended, reason }) => {
                self.unfinished = Some(ended.unfinished);
                self.reason = Some(reason);
                Err(NotWritten)
            }
        }
    }

    // Does the same where another file follows, unless an earlier one could not be finished.
    fn try_to_turn(&mut self, report: &FileReport) -> Result<(), NotWritten>
        ensures failed { self.new.failed ≡ self.old.failed }
        ensures session { self.new.session ≡ self.old.session }
        ensures ends { TurnsFile K.finishes self.old.unfinished report.now result self.old.reason
            self.new.reason self.old.finisher self.new.finisher }
    {
        if let Some(reason) = self.session.failure() {
            self.reason = Some(reason);
            return Err(NotWritten);
        }
        self.end_file(report, true)
    }

    // Finishes a file, or has it finished unless the next one will have its name.
    fn finish_or_queue(
        &mut self,
        ended: EndedFile<R::File>,
        gives_name: bool,
    ) -> Result<(), FailedFile<R::File>>
        ensures failed { self.new.failed ≡ self.old.failed }
        ensures reason { self.new.reason ≡ self.old.reason }
        ensures session { self.new.session ≡ self.old.session }
        ensures back { IfErr result (IsGivenBack ended) }
        ensures finishes { K.finishes self.old.finisher ended result self.new.finisher }
    {
        if gives_name {
            self.finisher.finish(ended)
        } else {
            self.finisher.finish_or_queue(ended)
        }
    }
}

impl<'a, R: Files, K: FileFinisher<R::File>> FileSeries for SessionFiles<'a, R, K> {
    ghost seen = { λ f. hidden f.failed };

    fn append(&mut self, octets: &[u8]) -> Result<(), NotWritten>
        ensures appends { Appends result octets.now (hidden self.old.failed) (hidden self.new.failed) }
        ensures reason { OnErr result (IsSome self.new.reason) }
        ensures session { self.new.session ≡ self.old.session }
    {
        match self.try_to_write(octets) {
            Ok(()) => Ok(()),
            Err(reason) => {
                self.failed = self.failed.saturating_add(1);
                self.reason = Some(reason);
                Err(NotWritten)
            }
        }
    }

    fn turn(&mut self, report: &FileReport) -> Result<(), NotWritten>
        ensures turns { Turns result report.now (hidden self.old.failed) (hidden self.new.failed) }
        ensures ends { TurnsFile K.finishes self.old.unfinished report.now result self.old.reason
            self.new.reason self.old.finisher self.new.finisher }
        ensures session { self.new.session ≡ self.old.session }
    {
        let turned = self.try_to_turn(report);
        if turned.is_err() {
            self.failed = self.failed.saturating_add(1);
        }
        turned
    }
}
