//! Files of maps that differ from those that a receipt tells of.

ghost use Rattle.std.specs.Prelude.{◌≡◌, [], map};
ghost use Rattle.report_writing.specs.Writing.{Tells};
ghost use Rattle.table_receipts.specs.Values.{file_value};
ghost use Rattle.receipt_differences.specs.Remade.{map_differs, maps_differ};

use crate::inputs::write_named;
use crate::numbers::write_other;
use crate::remade::is_same_file;
use report_writing::WriteLines;
use std::io;
use table_receipts::FileReceipt;

/// Writes a line for each file of a map that hasn't the octets of the one at its place in a receipt, and one if there are
/// more or fewer files.
pub fn write_map_differences<E: WriteLines>(
    found: &[FileReceipt],
    said: &[FileReceipt],
    err: &mut E,
) -> io::Result<()>
    ensures { Tells E.lines err.old err.new result
        (maps_differ (map file_value found.now) (map file_value said.now)) }
{
    match found {
        [] => write_unless_none(said, err),
        [first, found @ ..] => match said {
            [] => write_other("files of maps", err),
            [other, said @ ..] => {
                write_map_difference(first, other, err)?;
                write_map_differences(found, said, err)
            }
        },
    }
}

fn write_unless_none<E: WriteLines>(said: &[FileReceipt], err: &mut E) -> io::Result<()>
    ensures { Tells E.lines err.old err.new result
        (maps_differ [] (map file_value said.now)) }
{
    match said {
        [] => Ok(()),
        [_, ..] => write_other("files of maps", err),
    }
}

fn write_map_difference<E: WriteLines>(
    found: &FileReceipt,
    said: &FileReceipt,
    err: &mut E,
) -> io::Result<()>
    ensures { Tells E.lines err.old err.new result
        (map_differs (file_value found.now) (file_value said.now)) }
{
    if is_same_file(found, said) {
        Ok(())
    } else {
        let name = said.name.as_str();
        write_named("map", name, ": not that of the receipt\n", err)
    }
}
