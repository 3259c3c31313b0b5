//! The lines of what makes that the counters of a plan can't be scaled.

ghost use Rattle.std.specs.Prelude.{◌≡◌, ◌++◌, codes};
ghost use Rattle.input_sources.specs.PlaceLines.{key_line};
ghost use Rattle.input_sources.specs.ScalingLines as lines;
ghost use Rattle.report_writing.specs.Writing.{Tells};

use crate::places::write_key_line;
use element_registry::ElementsFault;
use flow_plan_fields::ScalingFault;
use report_writing::{WriteLines, write_fault};
use std::io;

/// Writes the line of the fault of a plan whose value of `sampling` is none of the words that there are, and then the
/// line that tells where it is.
pub fn write_no_sampling<W: WriteLines>(out: &mut W) -> io::Result<()>
    ensures { Tells W.lines out.old out.new result lines.sampling_lines }
{
    write_with("not \"ignore\", \"refuse\" or \"scale\"", out)
}

/// Writes the line of the fault of a plan whose counters can't be scaled, and then the line that tells why.
pub fn write_scaling_fault<W: WriteLines>(fault: ScalingFault, out: &mut W) -> io::Result<()>
    ensures { Tells W.lines out.old out.new result (lines.scaling_lines fault) }
{
    write_with(words_of(fault), out)
}

// Writes the line of the fault, and then the line that tells with these words what it is.
fn write_with<W: WriteLines>(words: &str, out: &mut W) -> io::Result<()>
    ensures { Tells W.lines out.old out.new result (lines.fault_with words.now) }
{
    write_sampling_fault(out)?;
    write_key_line("sampling", words, out)
}

fn write_sampling_fault<W: WriteLines>(out: &mut W) -> io::Result<()>
    ensures { Tells W.lines out.old out.new result lines.sampling_fault }
{
    write_fault("plan", 10, "Sampling", out)
}

// Why counters can't be scaled.
fn words_of(fault: ScalingFault) -> &'static str
    ensures { result.now ≡ lines.scaling_words fault }
{
    match fault {
        ScalingFault::Counter => "only counters of IANA's with numbers below 31768 have estimates",
        ScalingFault::Elements(ElementsFault::NumberTwice) =>
            "a file of elements has the number of an estimate",
        ScalingFault::Elements(ElementsFault::NameTwice) =>
            "a file of elements has the name of an estimate",
        ScalingFault::Elements(ElementsFault::TooMany) =>
            "files of elements leave no room for estimates",
        ScalingFault::Plan(_) => "the plan names an estimate by itself",
        ScalingFault::Elements(_) | ScalingFault::OutOfMemory => "out of memory",
    }
}
