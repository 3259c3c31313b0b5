//! Tables as CSV: the heading is a record of `csv`, and many lines of rows are written at once.

ghost use Rattle.std.specs.Prelude.{◌≡◌, ◌≢◌, [], IfOk, IfErr, OnOk};
ghost use Rattle.ipfix_elements.specs.Writers.{Writes};
ghost use Rattle.flow_table.specs.AddedUp.{rows_in};
ghost use Rattle.flow_table.specs.Fitting.{FitsPlan};
ghost use Rattle.flow_export.specs.CsvText.{csv_text, heading_line};

use crate::any_table::AnyTable;
use crate::fault::ExportFault;
use crate::table_text::TableText;
use crate::tables::write_table;
use csv::{ByteRecord, WriterBuilder};
use element_registry::Elements;
use flow_table::{Plan, Table};
use heading::set_heading;
use std::alloc::{AllocError, Global};
use std::io::Write;

mod heading;
mod rows;

pub use rows::CsvLines;

/// Writes a table as CSV ([`TableText::Csv`]), with the names of built-in elements.
///
/// An `Err` is `OutOfMemory`, or `WriteFailed` if the writer failed; how much was written then is open.
pub fn write_csv<W: Write>(
    alloc: Global,
    plan: &Plan,
    table: &Table,
    out: &mut W,
) -> Result<(), ExportFault>
    requires { FitsPlan plan.now table.now }
    ensures ok { OnOk result
        (Writes W.contents out.old out.new (csv_text [] plan.now (rows_in table.now))) }
    ensures fault { IfErr result (λ fault. fault ≢ ExportFault.TooManyRows) }
{
    let elements = Elements::built_in(alloc);
    let text = TableText::Csv(&elements);
    write_table(alloc, plan, &AnyTable::Rows(table), &text, out)
}

/// The line with the names of the fields, as `csv` writes it.
pub fn heading_text(alloc: Global, elements: &Elements, plan: &Plan) -> Result<Vec<u8>, AllocError>
    ensures { IfOk result (λ line. line.items ≡ heading_line elements.now plan.now) }
{
    let mut line = ByteRecord::new(alloc);
    set_heading(elements, plan, &mut Vec::new(alloc), &mut line)?;
    let mut writer = WriterBuilder::new().from_writer(Vec::new(alloc));
    // A writer over a vector fails only if memory runs out.
    if writer.write_byte_record(&line).is_err() {
        return Err(AllocError);
    }
    writer.into_inner().map_err(|_| AllocError)
}
