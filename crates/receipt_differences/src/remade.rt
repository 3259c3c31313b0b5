//! A table that was made again, and what it was made of, compared with a receipt.

ghost use Rattle.std.specs.Prelude.{◌≡◌, map, string_bytes};
ghost use Rattle.report_writing.specs.Writing.{Tells};
ghost use Rattle.table_receipts.specs.Values.{file_value, receipt_value};
ghost use Rattle.receipt_differences.specs.Orders.{IsOrderOf};
ghost use Rattle.receipt_differences.specs.Remade.{again_line, bool_same, complete_with, elements_differ, file_same, files_same, remade_differs, text_differs};

use crate::inputs::write_input_differences;
use crate::numbers::{write_count_differences, write_other_unless};
use crate::tables::write_row_differences;
use report_writing::WriteLines;
use std::io;
use table_receipts::{FileReceipt, InputReceipt, Receipt};

/// Writes a line for each thing that the receipt of a table which was made again doesn't tell as another receipt does: its
/// inputs, matched by their octets and exporters, how many records are of each class, its rows and what they add up to, and whether
/// it is complete, as no table is from which inputs were left out. `own` and `others` are the inputs of the other receipt and its
/// own in the order of their digests.
pub fn write_remade_differences<E: WriteLines>(
    found: &Receipt,
    said: &Receipt,
    own: &[&InputReceipt],
    others: &[&InputReceipt],
    err: &mut E,
) -> io::Result<()>
    requires of_inputs { IsOrderOf said.now.inputs.items own.now }
    requires of_files { IsOrderOf found.now.inputs.items others.now }
    ensures { Tells E.lines err.old err.new result
        (remade_differs (receipt_value found.now) (receipt_value said.now)) }
{
    write_input_differences(
        said.inputs.as_slice(),
        found.inputs.as_slice(),
        own,
        others,
        err,
    )?;
    write_count_differences(&found.records, &said.records, err)?;
    write_row_differences(&found.table, &said.table, err)?;
    let complete = is_complete(found.complete, &said.left_out);
    write_other_unless(is_same(complete, said.complete), "complete", err)
}

// Whether a table is complete from which what has these names was left out, by whether the rest is.
#[tactic(auto, using(crate::proofs::LeftOut::complete_without, crate::proofs::LeftOut::incomplete_with))]
fn is_complete(complete: bool, left_out: &[String]) -> bool
    ensures { result ≡ complete_with complete (map string_bytes left_out.now) }
{
    if left_out.is_empty() { complete } else { false }
}

fn is_same(found: bool, said: bool) -> bool
    ensures { result ≡ bool_same found said }
{
    if found { said } else { !said }
}

/// Writes a line unless a table has the octets of the one that was made again.
pub fn write_text_difference<E: WriteLines>(
    found: &[u8],
    table: &[u8],
    err: &mut E,
) -> io::Result<()>
    ensures { Tells E.lines err.old err.new result
        (text_differs found.now table.now) }
{
    if found == table {
        Ok(())
    } else {
        write_again(err)
    }
}

fn write_again<E: WriteLines>(err: &mut E) -> io::Result<()>
    ensures { Tells E.lines err.old err.new result again_line }
{
    err.write_all(b"collectd: verify: table: made again, it is another\n")
}

/// Writes a line unless files of elements have the octets of those that a receipt tells of, in their order.
pub fn write_element_differences<E: WriteLines>(
    found: &[FileReceipt],
    said: &[FileReceipt],
    err: &mut E,
) -> io::Result<()>
    ensures { Tells E.lines err.old err.new result
        (elements_differ (map file_value found.now) (map file_value said.now)) }
{
    write_other_unless(are_same_files(found, said), "files of elements", err)
}

fn are_same_files(found: &[FileReceipt], said: &[FileReceipt]) -> bool
    ensures { result ≡ files_same (map file_value found.now) (map file_value said.now) }
{
    let mut left = found;
    let mut rest = said;
    while let Some((file, later)) = left.split_first() {
        let Some((other, after)) = rest.split_first() else {
            return false;
        };
        if !is_same_file(file, other) {
            return false;
        }
        left = later;
        rest = after;
    }
    rest.is_empty()
}

/// Whether two files have the same octets, by their number and digest.
pub fn is_same_file(file: &FileReceipt, other: &FileReceipt) -> bool
    ensures { result ≡ file_same (file_value file.now) (file_value other.now) }
{
    file.octets == other.octets && file.sha256 == other.sha256
}
