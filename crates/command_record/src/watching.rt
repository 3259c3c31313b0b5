//! What is looked at once a second beside a run: whether the system's clock was set, and whether the folder is still there.

ghost use Rattle.std.specs.Prelude.{◌≡◌, ◌-◌, ◌&&◌, not, false, Some, None, is_some};
ghost use Rattle.report_writing.specs.Writing.{Tells};
ghost use Rattle.command_record.specs.Watching.{back_line, folder_lines, forward_line, set_lines, step_of, step_since as steps_since};

use cli_inputs::WITH_REASONS;
use recording_folder::Folder;
use recording_lines::WholeLines;
use recording_log::LineSender;
use report_writing::{Reason, WriteLines, write_not_had_because};
use std::rt::Clock;
use std::sync::Wait;
use std::time::{Duration, Instant, SystemTime};
use std::{fs, io, thread};

/// How the system's clock was set, by so many seconds.
#[derive(Clone, Copy, Debug, PartialEq, Eq)]
pub(crate) enum ClockStep {
    Forward(u64),
    Back(u64),
}

/// What is known of the clock and the folder of a run.
#[derive(Clone, Copy, Debug, PartialEq, Eq)]
pub(crate) struct RunWatch {
    /// The second since 1970 at which the run began, by what the clock said last, if it said anything.
    pub began: Option<u64>,
    /// Whether it was told that the folder isn't there, since it was there last.
    pub is_gone: bool,
}

impl RunWatch {
    /// The clock has said nothing yet, and nothing was told of the folder.
    pub(crate) fn new() -> Self
        ensures { result ≡ record { began = None; is_gone = false } }
    {
        RunWatch {
            began: None,
            is_gone: false,
        }
    }

    /// Takes the second that the clock says, so many seconds after the run began. The answer is how the clock was set since
    /// it said the one before, if it said one and that is by two seconds or more.
    pub(crate) fn take_second(&mut self, second: u64, since: u64) -> Option<ClockStep>
        ensures step { result ≡ steps_since self.old.began (second - since) }
        ensures kept { self.new ≡ record self.old { began = Some (second - since) } }
    {
        let before = self.began;
        let began = second.saturating_sub(since);
        self.began = Some(began);
        step_since(before, began)
    }

    /// Takes whether the folder is there, and answers whether that it isn't is to be told: once, until it is there again.
    pub(crate) fn take_folder(&mut self, is_there: bool) -> bool
        ensures told { result ≡ (not is_there && not self.old.is_gone) }
        ensures kept { self.new ≡ record self.old { is_gone = not is_there } }
    {
        let is_told = !is_there && !self.is_gone;
        self.is_gone = !is_there;
        is_told
    }
}

// How far it is from a second, if one is known, to another.
fn step_since(before: Option<u64>, after: u64) -> Option<ClockStep>
    ensures { result ≡ steps_since before after }
{
    step_between(before?, after)
}

// How far it is from one second to another, if that is two seconds or more.
fn step_between(before: u64, after: u64) -> Option<ClockStep>
    ensures { result ≡ step_of before after }
{
    if after.saturating_sub(before) >= 2 {
        Some(ClockStep::Forward(after.saturating_sub(before)))
    } else if before.saturating_sub(after) >= 2 {
        Some(ClockStep::Back(before.saturating_sub(after)))
    } else {
        None
    }
}

/// Looks at the clock and at the folder of a run once a second, until its lines are closed. It is told if the clock was set,
/// and if the folder is there no more.
pub(crate) fn watch<R: Clock + Wait>(
    waiting: &R,
    rt: &HostRuntime,
    folder: &Folder,
    lines: LineSender<R>,
) {
    let mut out = WholeLines::new(lines);
    let start = Instant::now(waiting).ok();
    let mut watch = RunWatch::new();
    for _ in waiting.forever() {
        // (a line that can't be written stops nothing)
        if let (Some(second), Some(since)) = (second_of(waiting), seconds_since(waiting, start)) {
            let _ = tell_step(watch.take_second(second, since), &mut out);
        }
        let _ = tell_folder(&mut watch, why_gone(rt, folder), folder.path(), &mut out);
        thread::sleep(waiting, Duration::from_secs(1));
        if lines.queue.is_closed(waiting) {
            return;
        }
    }
}

// Why the folder isn't there, if it isn't.
fn why_gone(rt: &HostRuntime, folder: &Folder) -> Option<Reason> {
    match fs::metadata(rt, folder.unfinished()) {
        Ok(_) => None,
        Err(error) => Some(Reason::of(&error)),
    }
}

// Takes whether the folder of this path is there, and tells why it isn't, if that is to be told.
fn tell_folder<W: WriteLines>(
    watch: &mut RunWatch,
    gone: Option<Reason>,
    path: &str,
    out: &mut W,
) -> io::Result<()>
    ensures kept { watch.new ≡ record watch.old { is_gone = is_some gone } }
    ensures told { Tells W.lines out.old out.new result
        (folder_lines watch.old.is_gone path.now gone) }
{
    let is_told = watch.take_folder(gone.is_none());
    match gone {
        Some(reason) if is_told => {
            write_not_had_because(WITH_REASONS, "folder", path, reason, out)
        }
        _ => Ok(()),
    }
}

// The second that the system's clock is in, counted from 1970, if it tells one.
fn second_of<R: Clock>(rt: &R) -> Option<u64> {
    let now = SystemTime::now(rt).ok()?;
    let since = now.duration_since(SystemTime::UNIX_EPOCH).ok()?;
    Some(since.as_secs())
}

fn seconds_since<R: Clock>(rt: &R, start: Option<Instant>) -> Option<u64> {
    let now = Instant::now(rt).ok()?;
    Some(now.duration_since(start?).as_secs())
}

/// Tells how the clock was set, if it was.
fn tell_step<W: WriteLines>(step: Option<ClockStep>, out: &mut W) -> io::Result<()>
    ensures { Tells W.lines out.old out.new result (set_lines step) }
{
    match step {
        None => Ok(()),
        Some(ClockStep::Forward(seconds)) => write_forward(seconds, out),
        Some(ClockStep::Back(seconds)) => write_back(seconds, out),
    }
}

#[tactic(auto, unfolding(crate::specs::Watching::forward_line))]
fn write_forward<W: WriteLines>(seconds: u64, out: &mut W) -> io::Result<()>
    ensures { Tells W.lines out.old out.new result (forward_line seconds) }
{
    writeln!(
        out,
        "collectd: record: clock set forward by {seconds} seconds"
    )
}

#[tactic(auto, unfolding(crate::specs::Watching::back_line))]
fn write_back<W: WriteLines>(seconds: u64, out: &mut W) -> io::Result<()>
    ensures { Tells W.lines out.old out.new result (back_line seconds) }
{
    writeln!(out, "collectd: record: clock set back by {seconds} seconds")
}
