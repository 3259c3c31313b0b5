//! The queue between those who write lines and the thread that writes them out.

ghost use Rattle.std.specs.Prelude.{◌≡◌, IfOk, if◌then◌else◌};
ghost use Rattle.recording_log.specs.Held.{is_held, nothing_held, with_line};
ghost use Rattle.recording_log.specs.Logs.{nothing_waits, pushed};

use crate::held_lines::HeldLines;
use crate::waiting_lines::WaitingLines;
use std::alloc::{AllocError, Global};
use std::io::{self, Write};
use std::mem;
use std::rt::Clock;
use std::sync::{Condvar, CondvarTimeouts, Mutex, Wait};
use std::time::{Duration, Instant};

/// How many seconds lines are held at least.
const SECOND: u64 = 1;

/// What is to be written: the lines that wait, and what is held until a second is over.
#[derive(Drop)]
pub struct QueuedLines {
    pub waiting: WaitingLines,
    pub held: HeldLines,
}

impl QueuedLines {
    /// Nothing.
    pub fn new(alloc: Global) -> Result<Self, AllocError>
        ensures waiting { IfOk result (λ lines. lines.waiting ≡ nothing_waits) }
        ensures held { IfOk result (λ lines. lines.held ≡ nothing_held) }
    {
        Ok(QueuedLines {
            waiting: WaitingLines::new(alloc)?,
            held: HeldLines::new(alloc)?,
        })
    }

    // Holds a line, or adds it, or counts it as dropped if it has no room.
    fn push(&mut self, line: &[u8])
        ensures held { self.new.held ≡ with_line self.old.held line.now }
        ensures waiting { self.new.waiting ≡ (if is_held self.old.held line.now
            then self.old.waiting else pushed self.old.waiting line.now) }
    {
        if !self.held.hold(line) {
            self.waiting.push(line);
        }
    }
}

// What is queued, and whether nothing more comes.
#[derive(Drop)]
struct QueueState {
    lines: QueuedLines,
    is_closed: bool,
}

/// A queue of lines, from several threads to the one that writes them out. Its lock is held only while a line is added
/// or all are taken, and never while something is written.
#[derive(Drop)]
pub struct LineQueue {
    state: Mutex<QueueState>,
    changed: Condvar,
}

impl LineQueue {
    /// A queue in which nothing waits.
    pub fn new(alloc: Global) -> Result<Self, AllocError> {
        Ok(LineQueue {
            state: Mutex::new(QueueState {
                lines: QueuedLines::new(alloc)?,
                is_closed: false,
            }),
            changed: Condvar::new(),
        })
    }

    /// Holds a line, or adds it, or counts it as dropped if it has no room.
    pub fn push<R: Wait>(&self, rt: &R, line: &[u8]) {
        self.state.lock(rt).lines.push(line);
        self.changed.notify_one();
    }

    /// Says that nothing more comes: what waits is still written.
    pub fn close<R: Wait>(&self, rt: &R) {
        self.state.lock(rt).is_closed = true;
        self.changed.notify_one();
    }

    /// Whether nothing more comes.
    pub fn is_closed<R: Wait>(&self, rt: &R) -> bool {
        self.state.lock(rt).is_closed
    }

    /// Writes all that comes, until the queue is closed and nothing waits. Lines that can't be written are lost, and stop
    /// nothing. It takes turns with lines in which nothing is.
    pub fn write_out<R: Wait + Clock, E: Write>(&self, rt: &R, lines: QueuedLines, err: &mut E) {
        let QueuedLines {
            mut waiting,
            mut held,
        } = lines;
        let mut second = Instant::now(rt).ok();
        for _ in rt.forever() {
            let is_closed = self.take_waiting(rt, &mut waiting);
            let _ = waiting.write(err);
            waiting.clear();
            if is_closed || is_over(rt, second) {
                second = Instant::now(rt).ok();
                self.state.lock(rt).lines.held.begin_second(&mut held);
                let _ = held.write(err);
            }
            if is_closed {
                return;
            }
        }
    }

    // Waits until there is something to write, nothing more comes, or a second has passed, and puts what waits in place of
    // no lines. Answers whether nothing more comes.
    fn take_waiting<R: Wait + Clock>(&self, rt: &R, room: &mut WaitingLines) -> bool {
        let state = self.state.lock(rt);
        let second = Duration::from_secs(SECOND);
        let (mut state, _) = self.changed.wait_timeout_while(rt, state, second, |state| {
            state.lines.waiting.is_empty() && !state.is_closed
        });
        mem::swap(&mut state.lines.waiting, room);
        state.is_closed
    }
}

// Whether a second has passed since then; so it is if a time isn't known.
fn is_over<R: Clock>(rt: &R, since: Option<Instant>) -> bool {
    match (since, Instant::now(rt)) {
        (Some(since), Ok(now)) => now.duration_since(since).as_secs() >= SECOND,
        _ => true,
    }
}

/// Puts into a queue what is written to it. A write never waits for who reads the lines, and takes all octets as one line.
pub struct LineSender<'a, R> {
    pub queue: &'a LineQueue,
    pub waiting: &'a R,
}

impl<'a, R> Copy for LineSender<'a, R> {}

impl<'a, R> Clone for LineSender<'a, R> {
    fn clone(&self) -> Result<Self, AllocError> {
        Ok(*self)
    }
}

impl<'a, R: Wait> Write for LineSender<'a, R> {
    fn write(&mut self, buf: &[u8]) -> io::Result<usize> {
        self.queue.push(self.waiting, buf);
        Ok(buf.len())
    }

    fn flush(&mut self) -> io::Result<()> {
        Ok(())
    }
}
