//! What the command `collectd dump` does with what it is given.

ghost use Rattle.std.specs.Prelude.{false, [], ◌∷◌, None};
ghost use Rattle.ipfix_dump.specs.DumpLines.{dump_line};
ghost use Rattle.report_writing.specs.Lines.{StaysFailed};
ghost use Rattle.report_writing.specs.Told.{AreToldTo};
ghost use Rattle.report_sessions.specs.ReportLines.{report_lines};
ghost use Rattle.command_dump.specs.Dumps.{RunsDump, RunsDumpWith};

use crate::ending::dump_to_end;
use crate::job::DumpJob;
use element_registry::Elements;
use input_files::{ReadText, load_elements};
use ipfix_dump::Form;
use ipfix_session::Source;
use report_writing::{NOTHING_MORE, Origin, Status, WriteLines};
use std::alloc::Global;
use std::io::Write;

/// Dumps a source to `out`, and answers the exit status: 0 if all went well; 1 if the session ended
/// with a fault; 3 if a line couldn't be made or written. To `err` it writes the report of
/// the session, or at status 3 only the line of that fault. A fault of `err` is passed over.
pub fn run_dump<S: Source, W: Write, E: WriteLines>(
    alloc: Global,
    source: &mut S,
    out: &mut W,
    err: &mut E,
) -> u8
    ensures runs { RunsDump (dump_line []) None S.seen source.old source.new
        (W.contents out.old) (W.contents out.new) result false
        (λ full AreTold. AreTold (report_lines (full.report ∷ [])))
        (AreToldTo E.lines err.old err.new) }
    ensures kept { StaysFailed E.lines err.old err.new }
{
    let elements = Elements::built_in(alloc);
    let job = DumpJob {
        form: Form::Text,
        element_files: &[],
        templates: None,
        origin: Origin::Unknown,
        verbosity: NOTHING_MORE,
    };
    dump_to_end(alloc, &job, &elements, source, out, err).number()
}

/// Reads files of elements, as [`load_elements`] does, and then does as [`run_dump`], in the form of the job,
/// and with elements that are named and values that are read by these files. It tells more of the session if
/// the job's verbosity asks for it, with the job's origin. If that is strict, the status is 1 also if
/// anything shows that something which was sent wasn't dumped
/// ([`are_spotless`](report_sessions::are_spotless)). It is `NotOpened` if a file was not read: then nothing is read of
/// the source, and nothing is written.
pub fn run_dump_with<T: ReadText, S: Source, W: Write, E: WriteLines>(
    files: &T,
    alloc: Global,
    job: &DumpJob,
    source: &mut S,
    out: &mut W,
    err: &mut E,
) -> Status
    ensures runs { RunsDumpWith S.seen S.failure source.old source.new W.contents out.old out.new job.now
        T.has T.refuses files.now (AreToldTo E.lines err.old err.new) result }
    ensures kept { StaysFailed E.lines err.old err.new }
{
    let elements = match load_elements(files, alloc, job.element_files, job.verbosity, err) {
        Some(elements) => elements,
        None => return Status::NotOpened,
    };
    dump_to_end(alloc, job, &elements, source, out, err)
}
