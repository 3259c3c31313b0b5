//! Finding a fault and writing its explanation.

ghost use Rattle.std.specs.Prelude.{◌≡◌, ◌⊎◌, ◌↔◌, find, None, Some, IsOk, IsSomeAnd, OnOk};
ghost use Rattle.std.specs.List.{flat_map};
ghost use Rattle.ipfix_elements.specs.Writers.{Writes};
ghost use Rattle.command_explain.specs.declared.ending_fault.EndingFault.{EndingFault};
ghost use Rattle.command_explain.specs.Explained.{IsWordOf, answer, explanation_text, failed_line, fault_line, list_text, named, names, none_line, rule_lines};
ghost use Rattle.report_writing.specs.Lines.{StaysFailed};
ghost use Rattle.report_writing.specs.Told.{AreToldTo};
ghost use Rattle.report_writing.specs.declared.status.Status.TheVariants.{Failed, NotOpened, Well};
ghost use Rattle.report_writing.specs.Writing.{Tells};

use crate::ending_fault::EndingFault;
use crate::faults::FAULTS;
use crate::guide::Explanation;
use crate::run_explaining::{explain_run_fault, run_fault_named, write_run_fault_lines};
use crate::run_faults::RUN_FAULTS;
use ipfix_dump::DumpFault;
use itoa::Buffer;
use report_writing::{Status, WriteLines, write_fault};
use std::io::{self, Write};

/// The fault that ends a session and that a word names: by its number in decimal, or by its name in any letter case.
pub fn fault_named(word: &str) -> Option<EndingFault>
    // Each fault is found by both.
    ensures each { (fault : EndingFault) → IsWordOf word.now fault → result ≡ Some fault }
    ensures exact { result ≡ named word.now }
{
    named_fault(word)
}

#[tactic(auto, unfolding(crate::specs::Explained::named))]
fn named_fault(word: &str) -> Option<EndingFault>
    ensures { result ≡ named word.now }
{
    find_fault(&FAULTS, word)
}

fn find_fault(mut faults: &'static [EndingFault], word: &str) -> Option<EndingFault>
    ensures { result ≡ find (names word.now) faults.entry.now }
{
    while let [fault, rest @ ..] = faults {
        if is_named(*fault, word) {
            return Some(*fault);
        }
        faults = rest;
    }
    None
}

fn is_named(fault: EndingFault, word: &str) -> bool
    ensures { result ≡ names word.now fault }
{
    let mut digits = Buffer::new();
    word.eq_ignore_ascii_case(digits.format(fault.number()))
        || word.eq_ignore_ascii_case(fault.name())
}

/// Writes the explanation of a fault, and flushes the writer.
pub fn explain<W: Write>(fault: EndingFault, out: &mut W) -> io::Result<()>
    ensures { OnOk result (Writes W.contents out.old out.new
        (explanation_text fault)) }
{
    write!(out, "fault ")?;
    write_fault_line(fault, out)?;
    write_rule_lines(fault, out)?;
    out.flush()
}

#[tactic(auto, unfolding(crate::specs::Explained::fault_line))]
fn write_fault_line<W: Write>(fault: EndingFault, out: &mut W) -> io::Result<()>
    ensures { OnOk result (Writes W.contents out.old out.new (fault_line fault)) }
{
    let (number, name) = (fault.number(), fault.name());
    let found = Explanation::of(fault).found;
    writeln!(out, "{number} {name}: {found}")
}

#[tactic(auto, unfolding(crate::specs::Explained::rule_lines))]
fn write_rule_lines<W: Write>(fault: EndingFault, out: &mut W) -> io::Result<()>
    ensures { OnOk result (Writes W.contents out.old out.new (rule_lines fault)) }
{
    let Explanation { rule, advice, .. } = Explanation::of(fault);
    writeln!(out, "rule: {rule}\n{advice}")
}

/// Writes a line for each fault that ends a session, in the order of their numbers, and then for each that
/// ends a run, and flushes the writer.
pub fn list_faults<W: Write>(out: &mut W) -> io::Result<()>
    ensures { OnOk result (Writes W.contents out.old out.new list_text) }
{
    write_fault_lines(&FAULTS, out)?;
    write_run_fault_lines(&RUN_FAULTS, out)?;
    out.flush()
}

fn write_fault_lines<W: Write>(faults: &[EndingFault], out: &mut W) -> io::Result<()>
    ensures { OnOk result (Writes W.contents out.old out.new
        (flat_map fault_line faults.now)) }
{
    for fault in faults {
        write_fault_line(*fault, out)?;
    }
    Ok(())
}

/// Writes to `out` the explanation of the fault that a word names, or without a word the list of all.
/// Answers `Well` if it was written; `NotOpened` if the word names no fault, and then nothing was
/// written; `Failed` if it couldn't be written. Unless all was well it writes a line to `err`, whose
/// own faults are passed over.
pub fn run_explain<W: Write, E: WriteLines>(word: Option<&str>, out: &mut W, err: &mut E) -> Status
    ensures statuses { (result ≡ Well) ⊎ (result ≡ NotOpened) ⊎ (result ≡ Failed) }
    ensures well { result ≡ Well
        → IsSomeAnd (answer word.entry) (Writes W.contents out.old out.new) }
    ensures unknown { (result ≡ NotOpened) ↔ (answer word.entry ≡ None) }
    ensures untouched { result ≡ NotOpened → out.new ≡ out.old }
    // What was told: nothing, or one line.
    ensures untold { result ≡ Well → err.new ≡ err.old }
    ensures none_told { result ≡ NotOpened
        → AreToldTo E.lines err.old err.new none_line }
    ensures failed { result ≡ Failed
        → AreToldTo E.lines err.old err.new failed_line }
    ensures kept { StaysFailed E.lines err.old err.new }
{
    match word {
        None => status_of(list_faults(out), err),
        Some(word) => match (fault_named(word), run_fault_named(word)) {
            (Some(fault), _) => status_of(explain(fault, out), err),
            (None, Some(fault)) => status_of(explain_run_fault(fault, out), err),
            (None, None) => {
                let _ = write_none(err);
                Status::NotOpened
            }
        },
    }
}

// The exit status of what was written.
fn status_of<E: WriteLines>(written: io::Result<()>, err: &mut E) -> Status
    ensures statuses { (result ≡ Well) ⊎ (result ≡ Failed) }
    ensures well { result ≡ Well → IsOk written }
    ensures untold { result ≡ Well → err.new ≡ err.old }
    ensures failed { result ≡ Failed
        → AreToldTo E.lines err.old err.new failed_line }
    ensures kept { StaysFailed E.lines err.old err.new }
{
    match written {
        Ok(()) => Status::Well,
        Err(_) => {
            let _ = write_failed(err);
            Status::Failed
        }
    }
}

// The line that says that a word names no fault.
fn write_none<E: WriteLines>(err: &mut E) -> io::Result<()>
    ensures { Tells E.lines err.old err.new result none_line }
{
    writeln!(
        err,
        "error: no fault has this number or name; 'collectd explain' lists them"
    )
}

// The line that says that the explanation could not be written.
fn write_failed<E: WriteLines>(err: &mut E) -> io::Result<()>
    ensures { Tells E.lines err.old err.new result failed_line }
{
    let fault = DumpFault::WriteFailed;
    write_fault("explain", fault.number(), fault.name(), err)
}
