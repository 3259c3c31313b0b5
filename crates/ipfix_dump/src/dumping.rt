//! Dumping a source: a line for each data record.

ghost use Rattle.std.specs.Prelude.{[], IfOk, None};
ghost use Rattle.ipfix_dump.specs.DumpLines.{dump_line};
ghost use Rattle.ipfix_dump.specs.Dumped.{Dumps, DumpsInFull, line_in};
ghost use Rattle.ipfix_dump.specs.Lines.{line_of};

use crate::fault::DumpFault;
use crate::line::Line;
use crate::line_sink::LineSink;
use crate::options::{DumpOptions, Form};
use element_registry::Elements;
use ipfix_session::{FullReport, READ_LIMIT, SessionLimits, SessionReport, Source, drive_in_full};
use std::alloc::Global;
use std::io::Write;

/// Reads a source to its end and writes a line for each data record of its octets, up to the end or
/// the first fault. The lines of a message are written as soon as it is whole.
///
/// The report says what the messages gave, and the fault that ended them; `OutOfMemory` for the
/// input is one. An `Err` is a line that couldn't be made or written; how much was written then is
/// open.
pub fn dump<S: Source, W: Write>(
    alloc: Global,
    source: &mut S,
    out: &mut W,
) -> Result<SessionReport, DumpFault>
    ensures { IfOk result (λ report.
        Dumps (dump_line []) None S.seen source.old source.new
        (W.contents out.old) (W.contents out.new) report) }
{
    let elements = Elements::built_in(alloc);
    let options = DumpOptions {
        form: Form::Text,
        elements: &elements,
        templates: None,
    };
    let full = dump_with(alloc, &options, source, out)?;
    Ok(full.report)
}

/// Does what [`dump`] does, with the lines that `options` say, and reports in full: with the balances of the
/// domains, and the place of the message that ended the session. A message after
/// which the session's templates would count more than `options` allow ends it, with the fault `TooManyFields`.
pub fn dump_with<S: Source, W: Write>(
    alloc: Global,
    options: &DumpOptions,
    source: &mut S,
    out: &mut W,
) -> Result<FullReport, DumpFault>
    ensures { IfOk result (λ full.
        DumpsInFull (line_in options.now.form options.now.elements.now) options.now.templates S.seen
        source.old source.new (W.contents out.old) (W.contents out.new) full) }
{
    let mut line = Line::new(alloc, options);
    dump_lines(alloc, &mut line, options.templates, source, out)
}

// Does the same with the lines that `line` makes, of a session whose templates may count so much, or anything.
fn dump_lines<S: Source, W: Write>(
    alloc: Global,
    line: &mut Line,
    templates: Option<u64>,
    source: &mut S,
    out: &mut W,
) -> Result<FullReport, DumpFault>
    ensures { IfOk result (λ full. DumpsInFull (line_of line.old) templates S.seen source.old source.new
        (W.contents out.old) (W.contents out.new) full) }
{
    let mut sink = LineSink::new(line, out);
    let limits = SessionLimits {
        reads: READ_LIMIT,
        templates,
    };
    let full = drive_in_full(alloc, source, &mut sink, limits);
    match sink.fault {
        None => Ok(full),
        Some(fault) => Err(fault),
    }
}
