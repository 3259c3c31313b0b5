//! Threads that finish the files of peers, beside the one that takes datagrams.

ghost use Rattle.std.specs.Prelude.{IfErr};
ghost use Rattle.recording_folder.specs.EndedFiles.{IsGivenBack};
ghost use Rattle.recording_datagrams.specs.Queues.{IsFinishedOrQueued};

use crossbeam_channel::{Receiver, Sender};
use recording_folder::{EndedFile, FailedFile, FileFinisher, Folder, FolderFinisher};
use recording_lines::{WholeLines, write_threads};
use std::alloc::Global;
use std::fs::{File, Files};
use std::io::Write;
use std::rt::Clock;
use std::sync::Wait;
use std::thread::{Scope, Threads};

/// How many threads finish files. Each waits for the disk nearly all the time, and the disk takes several such
/// calls at once.
const FINISHERS: usize = 4;

/// Files that wait to be finished, from the thread that takes datagrams to those that finish them. It has room
/// for some; where that is taken up a file is finished by the thread that it comes from.
#[derive(Drop)]
pub struct FileQueue<F> {
    pub enter: Sender<EndedFile<F>>,
    pub leave: Receiver<EndedFile<F>>,
}

/// Puts the files of a peer into a queue, if there is one, or finishes them at once.
#[derive(Drop)]
pub struct QueueFinisher<'a, R: Files + Clock, W: Wait, E: Write + Drop> {
    pub at_once: FolderFinisher<'a, R, WholeLines<E>>,
    pub queue: Option<&'a FileQueue<R::File>>,
    pub waiting: &'a W,
}

impl<'a, R: Files + Clock, W: Wait, E: Write + Drop> FileFinisher<R::File>
    for QueueFinisher<'a, R, W, E> {
    ghost finishes = { λ before ended result after. IsFinishedOrQueued
        ⟦<FolderFinisher<'a, R, WholeLines<E>> as FileFinisher<R::File>>⟧.finishes
        before.at_once ended result after.at_once };

    fn finish(&mut self, ended: EndedFile<R::File>) -> Result<(), FailedFile<R::File>>
        ensures finishes { IsFinishedOrQueued
            ⟦<FolderFinisher<'a, R, WholeLines<E>> as FileFinisher<R::File>>⟧.finishes
            self.old.at_once ended result self.new.at_once }
        ensures back { IfErr result (IsGivenBack ended) }
    {
        self.at_once.finish(ended)
    }

    fn finish_or_queue(&mut self, ended: EndedFile<R::File>) -> Result<(), FailedFile<R::File>>
        ensures finishes { IsFinishedOrQueued
            ⟦<FolderFinisher<'a, R, WholeLines<E>> as FileFinisher<R::File>>⟧.finishes
            self.old.at_once ended result self.new.at_once }
        ensures back { IfErr result (IsGivenBack ended) }
    {
        let Some(queue) = self.queue else {
            return self.at_once.finish(ended);
        };
        match queue.enter.try_send(self.waiting, ended) {
            Ok(()) => Ok(()),
            Err(refused) => self.at_once.finish(refused.into_inner()),
        }
    }

    fn finish_queued(&mut self) -> bool {
        let Some(queue) = self.queue else {
            return false;
        };
        match queue.leave.try_recv(self.waiting) {
            Ok(ended) => {
                self.at_once.finish_apart(ended);
                true
            }
            Err(_) => false,
        }
    }
}

/// Starts the threads that finish the files of a queue, for ever, and answers how many could be started. If those
/// aren't all that is reported.
pub(crate) fn start_finishers<
    's,
    'e,
    E: Write + Copy + Send + Drop + 's,
    R: Clock + Threads + Wait + Sync,
>(
    scope: &'s Scope<'s, &'e ()>,
    waiting: &'s R,
    rt: &'s HostRuntime,
    alloc: Global,
    folder: &'s Folder,
    queue: &'s FileQueue<File>,
    err: E,
) -> usize {
    let mut started: usize = 0;
    for _ in 0..FINISHERS {
        let run = move || finish_forever(waiting, rt, alloc, folder, queue, err);
        if scope.spawn(run).is_ok() {
            started = started.saturating_add(1);
        }
    }
    if started < FINISHERS {
        let _ = write_threads(started, FINISHERS, &mut WholeLines::new(err));
    }
    started
}

// Finishes one file of a queue after another.
fn finish_forever<E: Write + Drop, R: Wait>(
    waiting: &R,
    rt: &HostRuntime,
    alloc: Global,
    folder: &Folder,
    queue: &FileQueue<File>,
    err: E,
) {
    let mut finisher = FolderFinisher::new(rt, alloc, folder, WholeLines::new(err));
    for _ in waiting.forever() {
        if let Ok(ended) = queue.leave.recv(waiting) {
            finisher.finish_apart(ended);
        }
    }
}
