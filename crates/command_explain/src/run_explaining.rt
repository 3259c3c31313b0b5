//! Finding a fault that ends a run, and writing its explanation.

ghost use Rattle.std.specs.Prelude.{◌≡◌, find, Some, OnOk};
ghost use Rattle.std.specs.List.{flat_map};
ghost use Rattle.ipfix_elements.specs.Writers.{Writes};
ghost use Rattle.command_explain.specs.declared.run_faults.RunFault.{RunFault};
ghost use Rattle.command_explain.specs.Explained.{IsNameOf};
ghost use Rattle.command_explain.specs.RunFaults.{advice_lines, further_place, listed_of, names_run_fault, place, place_of, places_of, run_fault_line, run_fault_of, run_fault_text};

use crate::run_faults::{RUN_FAULTS, RunFault};
use flow_merge::MergeFault;
use flow_plan::PlanTextFault;
use std::io::{self, Write};

/// The fault that a word names, of those that end a run: by its name in any letter case.
pub fn run_fault_named(word: &str) -> Option<RunFault>
    // Each fault of the enums is found, but OutOfMemory, which is a session's.
    ensures each { (fault : RunFault) → IsNameOf word.now fault → result ≡ Some (listed_of fault) }
    ensures exact { result ≡ run_fault_of word.now }
{
    named_run_fault(word)
}

#[tactic(auto, unfolding(crate::specs::RunFaults::run_fault_of))]
fn named_run_fault(word: &str) -> Option<RunFault>
    ensures { result ≡ run_fault_of word.now }
{
    find_run_fault(&RUN_FAULTS, word)
}

fn find_run_fault(mut faults: &'static [RunFault], word: &str) -> Option<RunFault>
    ensures { result ≡ find (names_run_fault word.now) faults.entry.now }
{
    while let [fault, rest @ ..] = faults {
        if is_named(*fault, word) {
            return Some(*fault);
        }
        faults = rest;
    }
    None
}

fn is_named(fault: RunFault, word: &str) -> bool
    ensures { result ≡ names_run_fault word.now fault }
{
    word.eq_ignore_ascii_case(fault.name())
}

/// Writes the explanation of a fault that ends a run, and flushes the writer.
pub fn explain_run_fault<W: Write>(fault: RunFault, out: &mut W) -> io::Result<()>
    ensures { OnOk result (Writes W.contents out.old out.new
        (run_fault_text fault)) }
{
    write!(out, "fault ")?;
    write_run_fault_line(fault, out)?;
    write_advice_lines(fault, out)?;
    out.flush()
}

#[tactic(auto, unfolding(crate::specs::RunFaults::run_fault_line))]
fn write_run_fault_line<W: Write>(fault: RunFault, out: &mut W) -> io::Result<()>
    ensures { OnOk result (Writes W.contents out.old out.new
        (run_fault_line fault)) }
{
    let (name, found) = (fault.name(), fault.found());
    write!(out, "{name} (")?;
    write_places(fault, out)?;
    writeln!(out, "): {found}")
}

fn write_places<W: Write>(fault: RunFault, out: &mut W) -> io::Result<()>
    ensures { OnOk result (Writes W.contents out.old out.new
        (places_of fault)) }
{
    write_place(fault, out)?;
    write_further_places(fault.namesakes(), out)
}

fn write_further_places<W: Write>(faults: &[RunFault], out: &mut W) -> io::Result<()>
    ensures { OnOk result (Writes W.contents out.old out.new
        (flat_map further_place faults.now)) }
{
    for fault in faults {
        write_further_place(*fault, out)?;
    }
    Ok(())
}

fn write_further_place<W: Write>(fault: RunFault, out: &mut W) -> io::Result<()>
    ensures { OnOk result (Writes W.contents out.old out.new (further_place fault)) }
{
    write!(out, "; ")?;
    write_place(fault, out)
}

// Writes how the lines on standard error begin that have the fault, with its number there.
fn write_place<W: Write>(fault: RunFault, out: &mut W) -> io::Result<()>
    ensures { OnOk result (Writes W.contents out.old out.new (place_of fault)) }
{
    match fault {
        RunFault::PlanText(fault) => write_number("plan", fault.number(), out),
        RunFault::Plan(fault) => {
            let outer = PlanTextFault::Plan(fault);
            write_number("plan", outer.number(), out)?;
            write!(out, " ")?;
            write_number(outer.name(), fault.number(), out)
        }
        RunFault::Filter => write_number("plan", 8, out),
        RunFault::Map => write_number("plan", 9, out),
        RunFault::Sampling => write_number("plan", 10, out),
        RunFault::Elements(fault) => write_number("elements", fault.number(), out),
        RunFault::Collect(fault) => write_number("collect", fault.number(), out),
        RunFault::Merge(fault) => write_number("merge", fault.number(), out),
        RunFault::Row(fault) => {
            let outer = MergeFault::Row(fault);
            write_number("merge", outer.number(), out)?;
            write!(out, " ")?;
            write_number(outer.name(), fault.number(), out)
        }
        RunFault::Part(fault) => write_number("merge", fault.number(), out),
        RunFault::Export(fault) => write_number("export", fault.number(), out),
        RunFault::Dump(fault) => {
            write_number("dump", fault.number(), out)?;
            write!(out, "; ")?;
            write_number("explain", fault.number(), out)
        }
        RunFault::Receipt(fault) => write_number("receipt", fault.number(), out),
        RunFault::NotAReceipt => write_number("verify", 2, out),
    }
}

/// Writes how the lines of a family begin that have a fault of this number.
#[tactic(auto, unfolding(crate::specs::RunFaults::place))]
fn write_number<W: Write>(family: &str, number: u8, out: &mut W) -> io::Result<()>
    ensures { OnOk result (Writes W.contents out.old out.new
        (place family.now number)) }
{
    write!(out, "{family}: fault {number}")
}

#[tactic(auto, unfolding(crate::specs::RunFaults::advice_lines))]
fn write_advice_lines<W: Write>(fault: RunFault, out: &mut W) -> io::Result<()>
    ensures { OnOk result (Writes W.contents out.old out.new (advice_lines fault)) }
{
    let advice = fault.advice();
    writeln!(out, "{advice}")
}

/// Writes a line for each of these faults.
pub fn write_run_fault_lines<W: Write>(faults: &[RunFault], out: &mut W) -> io::Result<()>
    ensures { OnOk result (Writes W.contents out.old out.new
        (flat_map run_fault_line faults.now)) }
{
    for fault in faults {
        write_run_fault_line(*fault, out)?;
    }
    Ok(())
}
