//! Dumping a source to its end, and the status that says how it ended.

ghost use Rattle.std.specs.Prelude.{◌≡◌, ◌⊎◌, ◌↔◌, IfOk, IsTrue};
ghost use Rattle.ipfix_dump.specs.Dumped.{DumpsInFull, line_in};
ghost use Rattle.report_writing.specs.Lines.{StaysFailed};
ghost use Rattle.report_writing.specs.Statuses.{number_of};
ghost use Rattle.report_writing.specs.Told.{AreToldTo};
ghost use Rattle.report_writing.specs.Writing.{Tells};
ghost use Rattle.command_dump.specs.Dumps.{dump_lines, DumpsFor, EndedWell};

use crate::dump_fault::write_dump_fault;
use crate::job::DumpJob;
use element_registry::Elements;
use ipfix_dump::{DumpFault, DumpOptions, dump_with};
use ipfix_session::{FullReport, Source};
use report_sessions::{are_spotless, read_reason, write_told_session, write_unread};
use report_writing::{Reason, Status, WriteLines};
use std::alloc::Global;
use std::io::{self, Write};
use std::slice;

/// Dumps a source to `out` in the form of the job, with the names and kinds that `elements` give, and answers how
/// it ended. To `err` it writes what there is to tell of the session, or if the dump failed only the line of the
/// fault. A fault of `err` is passed over.
pub fn dump_to_end<S: Source, W: Write, E: WriteLines>(
    alloc: Global,
    job: &DumpJob,
    elements: &Elements,
    source: &mut S,
    out: &mut W,
    err: &mut E,
) -> Status
    ensures runs { DumpsFor S.seen S.failure source.old source.new W.contents out.old out.new job.now
        (number_of result) elements.now (AreToldTo E.lines err.old err.new) }
    ensures kept { StaysFailed E.lines err.old err.new }
{
    let options = DumpOptions {
        form: job.form,
        elements,
        templates: job.templates,
    };
    match dump_whole(alloc, &options, source, out) {
        Ok(full) => {
            let reason = read_reason(full.report.fault, source.failure());
            let _ = tell(job, elements, reason, &full, err);
            end_of(job.verbosity.strict, &full)
        }
        Err(fault) => {
            let _ = write_dump_fault(fault, err);
            Status::Failed
        }
    }
}

// Writes what there is to tell of the session, and then why standard input could not be read on, if that is known.
fn tell<E: WriteLines>(
    job: &DumpJob,
    elements: &Elements,
    reason: Option<Reason>,
    full: &FullReport,
    err: &mut E,
) -> io::Result<()>
    ensures { Tells E.lines err.old err.new result
        (dump_lines job.now elements.now reason full.now) }
{
    write_told_session(job.verbosity, elements, 1, &job.origin, None, full, err)?;
    write_unread(job.verbosity, "standard input", reason, err)
}

// How a session that was dumped ended.
fn end_of(strict: bool, full: &FullReport) -> Status
    ensures ends { (result ≡ Status.Well) ⊎ (result ≡ Status.SessionFault) }
    ensures well { (result ≡ Status.Well) ↔ EndedWell strict full.now }
{
    if ended_well(strict, full) {
        Status::Well
    } else {
        Status::SessionFault
    }
}

#[tactic(auto, using(crate::proofs::FullDumped::tested_strict, crate::proofs::FullDumped::tested_plain))]
fn ended_well(strict: bool, full: &FullReport) -> bool
    ensures { IsTrue result ↔ EndedWell strict full.now }
{
    if strict {
        are_spotless(slice::from_ref(full))
    } else {
        full.report.fault.is_none()
    }
}

// Dumps a source, and sees to it that nothing is left in the writer's buffer.
fn dump_whole<S: Source, W: Write>(
    alloc: Global,
    options: &DumpOptions,
    source: &mut S,
    out: &mut W,
) -> Result<FullReport, DumpFault>
    ensures { IfOk result (λ full.
        DumpsInFull (line_in options.now.form options.now.elements.now) options.now.templates S.seen
        source.old source.new (W.contents out.old) (W.contents out.new) full) }
{
    let full = dump_with(alloc, options, source, out)?;
    match out.flush() {
        Ok(()) => Ok(full),
        Err(error) => Err(DumpFault::from(error)),
    }
}
