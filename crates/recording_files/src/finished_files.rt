//! Who is told of files.

use crate::file_report::FileReport;
use std::io;

/// How a file ends that an earlier run left.
#[derive(Clone, Copy, Debug, PartialEq, Eq)]
pub enum FileEnd {
    /// With a whole message.
    Whole,
    /// So it does since this many octets were cut off: those of a message that isn't whole.
    CutOff(u64),
    /// With this many octets that are no whole message, and could not be cut off.
    Truncated(u64),
}

/// What became of a file that an earlier run left.
#[derive(Clone, Copy, Debug, PartialEq, Eq)]
pub enum Recovered {
    /// It has its final name.
    Placed {
        /// What it has, read by itself as a session, up to its end or the first message that has a fault.
        /// The recorder's own messages are counted, too: heads with their records, preambles, withdrawals, and templates that are defined again.
        report: FileReport,
        end: FileEnd,
    },
    /// It had these octets and no whole message, and went away.
    Removed(u64),
    /// It could not be read, or not be moved, and stays where it was.
    Stayed,
}

/// Is told of each file that has got its final name, or stays without one. An `Err` is a notice that could not be
/// passed on, as a line that could not be written.
pub trait FinishedFiles: Drop {
    ghost use Rattle.std.specs.Prelude.{Result};
    ghost use Rattle.std.specs.declared.io.Error.{Error};
    ghost use Rattle.recording_files.specs.Notices.{FileNotice, Finished, LookedAfter, NotFinished};

    /// Whether being told a notice may answer so, and what it is after that.
    ghost tells: { Self → FileNotice → Result (Unit {0}) Error → Self → Type 0 };

    /// A session's file was finished: its path, and what it has.
    fn finished(&mut self, path: &str, report: &FileReport) -> io::Result<()>
        ensures { tells self.old (Finished path.now report.now) result self.new };

    /// A session's file could not be finished, and stays where it was; it has this path.
    fn not_finished(&mut self, path: &str) -> io::Result<()>
        ensures { tells self.old (NotFinished path.now) result self.new };

    /// A file that an earlier run left was looked after: its path now or last, and what became of it.
    fn recovered(&mut self, path: &str, outcome: Recovered) -> io::Result<()>
        ensures { tells self.old (LookedAfter path.now outcome) result self.new };
}
