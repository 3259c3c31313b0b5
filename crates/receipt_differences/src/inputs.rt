//! Inputs that differ from those that files gave.

ghost use Rattle.std.specs.Prelude.{◌≡◌, map};
ghost use Rattle.std.specs.List.{flat_map};
ghost use Rattle.report_writing.specs.Writing.{Tells};
ghost use Rattle.table_receipts.specs.Values.{input_value};
ghost use Rattle.receipt_differences.specs.DifferenceLines.{line_start, named_line};
ghost use Rattle.receipt_differences.specs.Inputs.{file_end, input_end, inputs_differ, lacks as lacks_any};
ghost use Rattle.receipt_differences.specs.Orders.{Ascends, IsOrderOf, on_file, on_input, values_of};

use crate::likeness::Likeness;
use crate::order::count_alike;
use report_writing::{Origin, WriteLines, write_origin};
use std::io;
use table_receipts::InputReceipt;

/// Writes a line for each input that a receipt tells of for which there is no file, or whose file gave something else, and
/// then for each file for which there is no input. Each file is matched with one input at most, by their octets, their exporters
/// and what their sessions gave, whatever their names; `own` and `others` are the inputs and the files in the order of these.
pub fn write_input_differences<E: WriteLines>(
    inputs: &[InputReceipt],
    files: &[InputReceipt],
    own: &[&InputReceipt],
    others: &[&InputReceipt],
    err: &mut E,
) -> io::Result<()>
    requires of_inputs { IsOrderOf inputs.now own.now }
    requires of_files { IsOrderOf files.now others.now }
    ensures { Tells E.lines err.old err.new result
        (inputs_differ (map input_value inputs.now) (map input_value files.now)) }
{
    write_inputs(inputs, own, others, err)?;
    write_files(files, own, others, err)
}

// Writes the lines of the inputs.
fn write_inputs<E: WriteLines>(
    inputs: &[InputReceipt],
    own: &[&InputReceipt],
    others: &[&InputReceipt],
    err: &mut E,
) -> io::Result<()>
    requires own { Ascends own.now }
    requires others { Ascends others.now }
    ensures { Tells E.lines err.old err.new result
        (flat_map (on_input own.now others.now) inputs.now) }
{
    for input in inputs {
        write_input(input, own, others, err)?;
    }
    Ok(())
}

fn write_input<E: WriteLines>(
    input: &InputReceipt,
    own: &[&InputReceipt],
    others: &[&InputReceipt],
    err: &mut E,
) -> io::Result<()>
    requires own { Ascends own.now }
    requires others { Ascends others.now }
    ensures { Tells E.lines err.old err.new result (on_input own.now others.now input.now) }
{
    if lacks(Likeness::Report, input, own, others) {
        let name = input.file.name.as_str();
        write_named("input", name, end_of_input(input, own, others), err)
    } else {
        Ok(())
    }
}

// What an input has no file with: its octets; or its exporter, too; or its report.
fn end_of_input(
    input: &InputReceipt,
    own: &[&InputReceipt],
    others: &[&InputReceipt],
) -> &'static str
    requires own { Ascends own.now }
    requires others { Ascends others.now }
    ensures { result.now ≡ input_end (values_of own.now) (values_of others.now) (input_value input.now) }
{
    if lacks(Likeness::Octets, input, own, others) {
        ": no FILE for it\n"
    } else if lacks(Likeness::Exporter, input, own, others) {
        ": another exporter\n"
    } else {
        ": another report\n"
    }
}

// Whether fewer of the others than of its own are so far alike to an input.
fn lacks(
    to: Likeness,
    input: &InputReceipt,
    own: &[&InputReceipt],
    others: &[&InputReceipt],
) -> bool
    requires own { Ascends own.now }
    requires others { Ascends others.now }
    ensures { result ≡ lacks_any to (values_of own.now) (values_of others.now) (input_value input.now) }
{
    count_alike(to, input, others) < count_alike(to, input, own)
}

// Writes the lines of the files.
fn write_files<E: WriteLines>(
    files: &[InputReceipt],
    own: &[&InputReceipt],
    others: &[&InputReceipt],
    err: &mut E,
) -> io::Result<()>
    requires own { Ascends own.now }
    requires others { Ascends others.now }
    ensures { Tells E.lines err.old err.new result
        (flat_map (on_file own.now others.now) files.now) }
{
    for file in files {
        write_file(file, own, others, err)?;
    }
    Ok(())
}

fn write_file<E: WriteLines>(
    file: &InputReceipt,
    own: &[&InputReceipt],
    others: &[&InputReceipt],
    err: &mut E,
) -> io::Result<()>
    requires own { Ascends own.now }
    requires others { Ascends others.now }
    ensures { Tells E.lines err.old err.new result (on_file own.now others.now file.now) }
{
    if lacks(Likeness::Exporter, file, others, own) {
        let name = file.file.name.as_str();
        write_named("file", name, end_of_file(file, own, others), err)
    } else {
        Ok(())
    }
}

// What a file has no input with: its octets; or its exporter, too.
fn end_of_file(file: &InputReceipt, own: &[&InputReceipt], others: &[&InputReceipt]) -> &'static str
    requires own { Ascends own.now }
    requires others { Ascends others.now }
    ensures { result.now ≡ file_end (values_of own.now) (values_of others.now) (input_value file.now) }
{
    if lacks(Likeness::Octets, file, others, own) {
        ": no input for it\n"
    } else {
        ": another exporter\n"
    }
}

/// Writes a line of the input or the file of this name.
#[tactic(auto, unfolding(crate::specs::DifferenceLines::named_line))]
pub fn write_named<E: WriteLines>(what: &str, name: &str, end: &str, err: &mut E) -> io::Result<()>
    ensures { Tells E.lines err.old err.new result
        (named_line what.now name.now end.now) }
{
    write_start(what, err)?;
    write_origin(&Origin::File { name, size: None }, err)?;
    err.write_all(end.as_bytes())
}

#[tactic(auto, unfolding(crate::specs::DifferenceLines::line_start))]
fn write_start<E: WriteLines>(what: &str, err: &mut E) -> io::Result<()>
    ensures { Tells E.lines err.old err.new result (line_start what.now) }
{
    write!(err, "collectd: verify: {what}")
}
