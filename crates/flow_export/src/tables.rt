//! Tables as any of the texts that they are written as.

ghost use Rattle.std.specs.Prelude.{◌≡◌, ◌↔◌, length, IsErrOf, OnOk};
ghost use Rattle.ipfix_elements.specs.Writers.{Writes};
ghost use Rattle.flow_table.specs.Fitting.{FitsPlan};
ghost use Rattle.flow_export.specs.AnyTables.{rows_of, table_in};
ghost use Rattle.flow_export.specs.declared.fault.ExportFault.TheVariants.{TooManyRows};
ghost use Rattle.flow_export.specs.TableTexts.{IsTooMany, text_of};

use crate::any_table::AnyTable;
use crate::csv_text::{CsvLines, heading_text};
use crate::fault::ExportFault;
use crate::ipfix_text::write_messages;
use crate::json_text::RowLabels;
use crate::row_lines::write_lines;
use crate::table_rows::TableRows;
use crate::table_text::TableText;
use flow_table::Plan;
use std::alloc::Global;
use std::io::Write;

/// Writes a table as `text` says, its rows in the order of the table. A block of lines, or a message, is made in memory
/// and then written.
///
/// `TooManyRows` is a table of 2^32 rows or more, as IPFIX; then nothing is written. `OutOfMemory` is an allocation that
/// was refused, and `WriteFailed` a writer that failed; how much was written then is open.
pub fn write_table<W: Write>(
    alloc: Global,
    plan: &Plan,
    table: &AnyTable,
    text: &TableText,
    out: &mut W,
) -> Result<(), ExportFault>
    requires { FitsPlan plan.now (table_in table.now) }
    ensures ok { OnOk result
        (Writes W.contents out.old out.new (text_of text.now plan.now table.now)) }
    ensures many { IsErrOf result TooManyRows
        ↔ IsTooMany text.now (length (rows_of table.now)) }
    ensures untouched { IsErrOf result TooManyRows → out.new ≡ out.old }
{
    if text.is_too_many(table.len()) {
        return Err(ExportFault::TooManyRows);
    }
    let intervals = table.intervals();
    let mut rows = TableRows::of(alloc, table)?;
    match text {
        TableText::Csv(elements) => {
            let heading = heading_text(alloc, elements, plan)?;
            out.write_all(heading.as_slice())?;
            write_lines(alloc, plan, &mut rows, &CsvLines { intervals }, out)
        }
        TableText::Json(elements) => {
            let labels = RowLabels::of(alloc, elements, plan, intervals)?;
            write_lines(alloc, plan, &mut rows, &labels, out)
        }
        TableText::Ipfix(time) => write_messages(alloc, plan, intervals, &mut rows, *time, out),
    }
}
