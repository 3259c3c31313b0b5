//! Files that wait to be finished apart from their session.

ghost use Rattle.std.specs.Prelude.{⊤, IfErr};
ghost use Rattle.recording_folder.specs.EndedFiles.{IsGivenBack};

use super::kept_files::KeptFiles;
use super::refusals::{NO_DESCRIPTOR, NO_SPACE, Reach, Refusal};
use super::script_disk::Disk;
use super::script_file::{DiskFile, lent};
use super::sessions::{FIRST, FIRST_NAME, FIRST_TWO, FOURTH, NEXT_NAME, SECOND, THIRD, peer};
use super::standing::{Notes, check};
use super::trial::{MANY_CALLS, NEXT_PERIOD, Trial};
use recording_files::{FileReport, NotWritten, PeriodClock};
use recording_folder::{
    EndedFile, FailedFile, FileFinisher, FilesEnd, Folder, FolderFinisher, SessionFiles,
    SystemPeriods, SystemPlace, open_folder,
};
use recording_names::Transport;
use report_writing::Reason;
use std::cell::RefCell;
use std::test::*;

/// Files that wait to be finished.
type Queue<'a> = RefCell<Vec<EndedFile<DiskFile<'a>>>>;

/// Has files wait, where they may.
#[derive(Drop)]
struct QueueFinisher<'q, 'a> {
    at_once: FolderFinisher<'a, Disk<'a>, Notes<'a>>,
    queue: &'q Queue<'a>,
}

// Takes the last file that waits.
fn take_waiting<'a>(queue: &Queue<'a>) -> Option<EndedFile<DiskFile<'a>>> {
    match queue.try_borrow_mut() {
        Ok(mut queue) => queue.pop(),
        Err(_) => None,
    }
}

impl<'q, 'a> FileFinisher<DiskFile<'a>> for QueueFinisher<'q, 'a> {
    ghost finishes = { λ _ _ _ _. ⊤ };

    fn finish(&mut self, ended: EndedFile<DiskFile<'a>>) -> Result<(), FailedFile<DiskFile<'a>>>
        ensures finishes { ⊤ }
        ensures back { IfErr result (IsGivenBack ended.entry) }
    {
        self.at_once.finish(ended)
    }

    fn finish_or_queue(
        &mut self,
        ended: EndedFile<DiskFile<'a>>,
    ) -> Result<(), FailedFile<DiskFile<'a>>>
        ensures finishes { ⊤ }
        ensures back { IfErr result (IsGivenBack ended.entry) }
    {
        let reason = Reason::OutOfMemory;
        let Ok(mut queue) = self.queue.try_borrow_mut() else {
            return Err(FailedFile { ended, reason });
        };
        if queue.reserve(1).is_err() {
            return Err(FailedFile { ended, reason });
        }
        queue.push_reserved(ended);
        Ok(())
    }

    fn finish_queued(&mut self) -> bool {
        match take_waiting(self.queue) {
            Some(ended) => {
                self.at_once.finish_apart(ended);
                true
            }
            None => false,
        }
    }
}

/// A session whose files wait.
type WaitingFiles<'q, 'a> = SessionFiles<'a, Disk<'a>, QueueFinisher<'q, 'a>>;

// Writes a file of the first period and has it wait.
fn write_first<'q, 'a>(
    disk: &Disk<'a>,
    files: &mut WaitingFiles<'q, 'a>,
    periods: &mut SystemPeriods<'a, Disk<'a>>,
    kept: &mut KeptFiles,
) -> Result<(), Fail> {
    kept.append(files, FIRST)?;
    kept.append(files, SECOND)?;
    lent(disk.tree)?.second = NEXT_PERIOD;
    if periods.is_over() {
        kept.turn(files)?;
    }
    Ok(())
}

// Has two files wait.
fn write_both<'q, 'a>(
    disk: &'a Disk<'a>,
    folder: &'a Folder,
    notes: Notes<'a>,
    queue: &'q Queue<'a>,
    kept: &mut KeptFiles,
) -> Result<(), Fail> {
    let place = SystemPlace::new(disk, folder, 300);
    let mut periods = place.periods(disk.alloc)?;
    let at_once = place.finisher(disk.alloc, notes);
    let finisher = QueueFinisher { at_once, queue };
    let mut files = place.files(
        disk.alloc,
        peer(),
        Transport::Connection,
        7,
        &periods,
        finisher,
    )?;
    write_first(disk, &mut files, &mut periods, kept)?;
    kept.append(&mut files, THIRD)?;
    files.finish(&FileReport::EMPTY).finished?;
    Ok(())
}

// Finishes two of the files that wait.
fn finish_both<'a>(disk: &'a Disk<'a>, folder: &'a Folder, notes: Notes<'a>, queue: &Queue<'a>) {
    let mut finisher = FolderFinisher::new(disk, disk.alloc, folder, notes);
    for _ in 0..2 {
        if let Some(ended) = take_waiting(queue) {
            finisher.finish_apart(ended);
        }
    }
}

// Has two files wait, and finishes them on a disk that refuses this. Answers whether the first call that it
// refuses came. Both stand whole, and have their final names after a start at which nothing is refused.
fn finish_refused<'q, 'a>(
    trial: &Trial<'_>,
    disk: &'a Disk<'a>,
    folder: &'a Folder,
    notes: Notes<'a>,
    queue: &'q Queue<'a>,
    refusal: Refusal,
) -> Result<bool, Fail> {
    let case = format!(in disk.alloc; "{refusal:?}")?;
    let mut kept = KeptFiles::new(disk.alloc);
    write_both(disk, folder, notes, queue, &mut kept)?;
    trial.refuse(Some(refusal))?;
    finish_both(disk, folder, notes, queue);
    let was_reached = trial.has_called(refusal.first)?;
    trial.check(&kept, case.as_str())?;
    if !was_reached || refusal.reach == Reach::OneOpened {
        trial.check_lines(&[("finished ", NEXT_NAME), ("finished ", FIRST_NAME)])?;
    }
    trial.recover()?;
    trial.check_settled(&kept, b"", case.as_str())?;
    Ok(was_reached)
}

// The same on a disk of its own.
fn try_apart(rt: &HostRuntime, folder: &Folder, refusal: Refusal) -> Result<bool, Fail> {
    let trial = Trial::new(rt, folder)?;
    let disk = trial.disk();
    let queue = RefCell::new(Vec::new(trial.alloc));
    let notes = trial.notes();
    finish_refused(&trial, &disk, folder, notes, &queue, refusal)
}

// Refuses each call in turn, until both are finished before.
fn refuse_each(rt: &HostRuntime, folder: &Folder, reach: Reach, code: i32) -> Result<(), Fail> {
    for first in 0..MANY_CALLS {
        let refusal = Refusal { first, reach, code };
        if !try_apart(rt, folder, refusal)? {
            return Ok(());
        }
    }
    Err(Fail::new("no files were finished"))
}

#[test]
fn a_file_that_is_finished_apart_stands_whole_whatever_call_is_refused(
    rt: HostRuntime,
) -> Result<(), Fail> {
    let folder = open_folder(&rt, rt.alloc(), "recordings")?;
    for reach in [Reach::One, Reach::Each, Reach::EachForRoom] {
        refuse_each(&rt, &folder, reach, NO_SPACE)?;
    }
    Ok(())
}

#[test]
fn a_file_is_finished_apart_once_a_descriptor_is_free(rt: HostRuntime) -> Result<(), Fail> {
    let folder = open_folder(&rt, rt.alloc(), "recordings")?;
    refuse_each(&rt, &folder, Reach::OneOpened, NO_DESCRIPTOR)
}

// A file could not be finished: its session takes no more, and its files have their names after the next start.
fn fail_apart<'q, 'a>(
    trial: &Trial<'_>,
    disk: &'a Disk<'a>,
    folder: &'a Folder,
    notes: Notes<'a>,
    queue: &'q Queue<'a>,
) -> Result<(), Fail> {
    let place = SystemPlace::new(disk, folder, 300);
    let mut periods = place.periods(disk.alloc)?;
    let at_once = place.finisher(disk.alloc, notes);
    let finisher = QueueFinisher { at_once, queue };
    let mut files = place.files(
        disk.alloc,
        peer(),
        Transport::Connection,
        7,
        &periods,
        finisher,
    )?;
    let mut kept = KeptFiles::new(disk.alloc);
    write_first(disk, &mut files, &mut periods, &mut kept)?;
    kept.append(&mut files, THIRD)?;
    trial.refuse(Some(Refusal {
        first: 0,
        reach: Reach::Each,
        code: NO_SPACE,
    }))?;
    finish_both(disk, folder, notes, queue);
    trial.check_lines(&[("not finished ", "unfinished/1795613700-192.0.2.1-40012-7")])?;
    trial.refuse(None)?;
    let case = "after a file could not be finished";
    check(kept.append(&mut files, FOURTH).is_err(), case, "append")?;
    check(kept.turn(&mut files).is_err(), case, "turn")?;
    let end = FilesEnd {
        finished: Err(NotWritten),
        reason: Some(Reason::NoSpace),
    };
    check(files.finish(&FileReport::EMPTY) == end, case, "finish")?;
    trial.recover()?;
    trial.check_file(FIRST_NAME, FIRST_TWO)?;
    trial.check_settled(&kept, b"", case)
}

// The same on a disk of its own.
fn try_failure(rt: &HostRuntime, folder: &Folder) -> Result<(), Fail> {
    let trial = Trial::new(rt, folder)?;
    let disk = trial.disk();
    let queue = RefCell::new(Vec::new(trial.alloc));
    let notes = trial.notes();
    fail_apart(&trial, &disk, folder, notes, &queue)
}

// A file waits, and no descriptor is free for the next.
fn lack_descriptor<'q, 'a>(
    trial: &Trial<'_>,
    disk: &'a Disk<'a>,
    folder: &'a Folder,
    notes: Notes<'a>,
    queue: &'q Queue<'a>,
) -> Result<(), Fail> {
    let place = SystemPlace::new(disk, folder, 300);
    let mut periods = place.periods(disk.alloc)?;
    let at_once = place.finisher(disk.alloc, notes);
    let finisher = QueueFinisher { at_once, queue };
    let mut files = place.files(
        disk.alloc,
        peer(),
        Transport::Connection,
        7,
        &periods,
        finisher,
    )?;
    let mut kept = KeptFiles::new(disk.alloc);
    write_first(disk, &mut files, &mut periods, &mut kept)?;
    trial.refuse(Some(Refusal {
        first: 0,
        reach: Reach::OneOpened,
        code: NO_DESCRIPTOR,
    }))?;
    kept.append(&mut files, THIRD)?;
    trial.check_lines(&[("finished ", FIRST_NAME)])?;
    trial.check(&kept, "no descriptor is free")
}

// The same on a disk of its own.
fn try_lack(rt: &HostRuntime, folder: &Folder) -> Result<(), Fail> {
    let trial = Trial::new(rt, folder)?;
    let disk = trial.disk();
    let queue = RefCell::new(Vec::new(trial.alloc));
    let notes = trial.notes();
    lack_descriptor(&trial, &disk, folder, notes, &queue)
}

#[test]
fn a_session_fails_once_a_file_of_it_could_not_be_finished_apart(
    rt: HostRuntime,
) -> Result<(), Fail> {
    let folder = open_folder(&rt, rt.alloc(), "recordings")?;
    try_failure(&rt, &folder)
}

#[test]
fn files_that_wait_are_finished_first_where_no_descriptor_is_free(
    rt: HostRuntime,
) -> Result<(), Fail> {
    let folder = open_folder(&rt, rt.alloc(), "recordings")?;
    try_lack(&rt, &folder)
}
