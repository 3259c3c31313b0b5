//! Files that have ended, and who finishes them.

ghost use Rattle.std.specs.Prelude.{◌≡◌, IfErr, IfNone, IfOk, IfSome, OnErr, OnOk};
ghost use Rattle.std.specs.String.{string_bytes};
ghost use Rattle.recording_folder.specs.EndedFiles.{IsFinalPathOf, IsFinished, IsFinishedApart, IsFinishedOrBack, IsGivenBack, StaysInPlace};

use crate::folder::Folder;
use crate::lack::lacks_descriptors;
use crate::placing::place_file;
use crate::unfinished_file::UnfinishedFile;
use recording_files::{FileReport, FinishedFiles};
use report_writing::Reason;
use std::alloc::Global;
use std::fs::{self, Files};
use std::rt::Clock;
use std::time::Duration;
use std::{io, thread};

/// How often a file is tried to be finished apart from its session while no descriptor is free.
const TRIES: u64 = 10;

/// How many milliseconds pass between.
const PAUSE: u64 = 100;

/// A file of a session that has ended: whoever has it can finish it, in whichever thread. It is open until its
/// octets are on the disk.
#[derive(Drop)]
pub struct EndedFile<F> {
    pub(crate) unfinished: UnfinishedFile<F>,
    pub(crate) report: FileReport,
}

/// A file that could not be finished, and why.
#[derive(Drop)]
pub struct FailedFile<F> {
    pub ended: EndedFile<F>,
    pub reason: Reason,
}

/// Finishes the files of sessions.
pub trait FileFinisher<F>: Drop {
    ghost use Rattle.std.specs.Prelude.{IfErr, Result};
    ghost use Rattle.recording_folder.specs.EndedFiles.{IsGivenBack};
    ghost use Rattle.recording_folder.specs.declared.ended_file.EndedFile.{EndedFile};
    ghost use Rattle.recording_folder.specs.declared.ended_file.FailedFile.{FailedFile};

    /// Whether finishing a file, or having it finished, may answer so, and what this is after that.
    ghost finishes: { Self → EndedFile F → Result (Unit {0}) (FailedFile F) → Self → Type 0 };

    /// Finishes a file before it returns; if it is empty it goes away. An `Err` gives the file back, which stays
    /// among those that aren't finished.
    fn finish(&mut self, ended: EndedFile<F>) -> Result<(), FailedFile<F>>
        ensures finishes { finishes self.old ended result self.new }
        ensures back { IfErr result (IsGivenBack ended) };

    /// Does the same, or has it done. Where that fails later, the session of the file fails at its next call.
    fn finish_or_queue(&mut self, ended: EndedFile<F>) -> Result<(), FailedFile<F>>
        ensures finishes { finishes self.old ended result self.new }
        ensures back { IfErr result (IsGivenBack ended) };

    /// Finishes one of the files that wait for it, and answers whether there was one.
    fn finish_queued(&mut self) -> bool;
}

/// Finishes each file of a folder at once, and tells it.
#[derive(Drop)]
pub struct FolderFinisher<'a, R, L> {
    rt: &'a R,
    alloc: Global,
    folder: &'a Folder,
    log: L,
}

impl<'a, R: Files, L: FinishedFiles> FolderFinisher<'a, R, L> {
    /// Files that are finished are told to the log.
    pub fn new(rt: &'a R, alloc: Global, folder: &'a Folder, log: L) -> Self {
        FolderFinisher {
            rt,
            alloc,
            folder,
            log,
        }
    }

    // Finishes a file, and tells it unless it was empty.
    fn try_to_finish(&mut self, ended: &mut EndedFile<R::File>) -> io::Result<()>
        ensures finished { OnOk result (IsFinished L.tells ended.old self.old self.new) }
        ensures err { OnErr result (self.new.log ≡ self.old.log) }
        ensures folder { self.new.folder ≡ self.old.folder }
        ensures report { ended.new.report ≡ ended.old.report }
        ensures place { StaysInPlace ended.old.unfinished ended.new.unfinished }
    {
        if let Some(path) = self.settle(&mut ended.unfinished)? {
            // (a line that can't be written stops nothing)
            let _ = self.log.finished(path.as_str(), &ended.report);
        }
        Ok(())
    }

    // Brings a file to the disk under its final name, and answers its path; an empty one goes away.
    fn settle(&self, unfinished: &mut UnfinishedFile<R::File>) -> io::Result<Option<String>>
        ensures empty { IfOk result (λ placed. IfNone placed (unfinished.old.length ≡ 0)) }
        ensures path { IfOk result (λ placed. IfSome placed (λ path.
            IsFinalPathOf self.now.folder.now unfinished.old (string_bytes path))) }
        ensures place { StaysInPlace unfinished.old unfinished.new }
    {
        if unfinished.is_empty() {
            fs::remove_file(self.rt, unfinished.path.as_str())?;
            return Ok(None);
        }
        unfinished.close()?;
        let path = place_file(
            self.rt,
            self.alloc,
            self.folder,
            unfinished.path.as_str(),
            unfinished.period,
            unfinished.session.name(),
        )?;
        Ok(Some(path))
    }
}

impl<'a, R: Files + Clock, L: FinishedFiles> FolderFinisher<'a, R, L> {
    /// Finishes a file apart from its session. Where that fails the file stays among those that aren't finished,
    /// which is told, and its session fails at its next call.
    pub fn finish_apart(&mut self, ended: EndedFile<R::File>)
        ensures { IsFinishedApart L.tells ended self.old self.new }
    {
        let mut ended = ended;
        let mut failure = Reason::Other;
        for _ in 0..TRIES {
            match self.try_to_finish(&mut ended) {
                Ok(()) => return,
                Err(error) => {
                    failure = Reason::of(&error);
                    if !lacks_descriptors(&error) {
                        break;
                    }
                    thread::sleep(self.rt, Duration::from_millis(PAUSE));
                }
            }
        }
        ended.unfinished.session.fail(failure);
        let _ = self.log.not_finished(ended.unfinished.path.as_str());
    }
}

impl<'a, R: Files, L: FinishedFiles> FileFinisher<R::File> for FolderFinisher<'a, R, L> {
    ghost finishes = { λ before ended result after.
        IsFinishedOrBack L.tells ended result before after };

    fn finish(&mut self, ended: EndedFile<R::File>) -> Result<(), FailedFile<R::File>>
        ensures finishes { IsFinishedOrBack L.tells ended result self.old self.new }
        ensures back { IfErr result (IsGivenBack ended) }
    {
        let mut ended = ended;
        match self.try_to_finish(&mut ended) {
            Ok(()) => Ok(()),
            Err(error) => Err(FailedFile {
                ended,
                reason: Reason::of(&error),
            }),
        }
    }

    fn finish_or_queue(&mut self, ended: EndedFile<R::File>) -> Result<(), FailedFile<R::File>>
        ensures finishes { IsFinishedOrBack L.tells ended result self.old self.new }
        ensures back { IfErr result (IsGivenBack ended) }
    {
        self.finish(ended)
    }

    fn finish_queued(&mut self) -> bool {
        false
    }
}
