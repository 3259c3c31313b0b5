//! Tables as messages of IPFIX.

ghost use Rattle.std.specs.Prelude.{◌≡◌, ◌≢◌, ◌<◌, ◌≤◌, ◌^◌, ◌↔◌, All, length, IfOk, IfErr, IsErrOf, OnOk};
ghost use Rattle.ipfix_elements.specs.Writers.{Writes};
ghost use Rattle.flow_table.specs.AddedUp.{rows_in};
ghost use Rattle.flow_table.specs.Fitting.{FitsPlan};
ghost use Rattle.flow_export.specs.Fitting.{IsExportable};
ghost use Rattle.flow_export.specs.IpfixText.{ipfix_text, ipfix_text_in, template_message};

use crate::any_table::AnyTable;
use crate::fault::ExportFault;
use crate::intervals::Intervals;
use crate::table_rows::TableRows;
use crate::table_text::TableText;
use crate::tables::write_table;
use flow_table::{Plan, Table};
use ipfix_wire::TEMPLATE_SET_ID;
use messages::{MOST_OCTETS, place_message, set_message};
use std::alloc::Global;
use std::io::Write;
use template::append_template;

mod messages;
mod placing;
mod rows;
mod template;
mod widths;

pub use rows::ROWS_A_MESSAGE;

/// A table as messages of IPFIX ([`TableText::Ipfix`]), as a vector. An `Err` is `TooManyRows`, for a table of 2^32 rows or
/// more, or `OutOfMemory`.
pub fn ipfix_bytes(
    alloc: Global,
    plan: &Plan,
    table: &Table,
    export_time: u32,
) -> Result<Vec<u8>, ExportFault>
    requires { FitsPlan plan.now table.now }
    ensures ok { IfOk result
        (λ out. out.items ≡ ipfix_text plan.now export_time (rows_in table.now)) }
    ensures many { IsErrOf result ExportFault.TooManyRows ↔ (2 ^ 32 ≤ length table.now.rows.items) }
    ensures fault { IfErr result (λ fault. fault ≢ ExportFault.WriteFailed) }
{
    let mut bytes = Vec::new(alloc);
    let text = TableText::Ipfix(export_time);
    match write_table(alloc, plan, &AnyTable::Rows(table), &text, &mut bytes) {
        Ok(()) => Ok(bytes),
        // A vector fails only if memory runs out.
        Err(ExportFault::OutOfMemory | ExportFault::WriteFailed) => Err(ExportFault::OutOfMemory),
        Err(ExportFault::TooManyRows) => Err(ExportFault::TooManyRows),
    }
}

fn write_template<W: Write>(
    alloc: Global,
    plan: &Plan,
    time: u32,
    out: &mut W,
) -> Result<(), ExportFault>
    ensures ok { OnOk result
        (Writes W.contents out.old out.new (template_message plan.now time)) }
    ensures fault { IfErr result (λ fault. fault ≢ ExportFault.TooManyRows) }
{
    let mut template = Vec::new(alloc);
    append_template(plan, &mut template)?;
    let mut message = Vec::new(alloc);
    set_message(TEMPLATE_SET_ID, template.as_slice(), 0, time, &mut message)?;
    out.write_all(message.as_slice())?;
    Ok(())
}

/// Writes the template, and then the rows, a hundred in each message but the last.
pub fn write_messages<W: Write>(
    alloc: Global,
    plan: &Plan,
    intervals: Intervals,
    rows: &mut TableRows,
    export_time: u32,
    out: &mut W,
) -> Result<(), ExportFault>
    requires fit { All (IsExportable plan.now) rows.old }
    requires few { length rows.old < 2 ^ 32 }
    ensures ok { OnOk result
        (Writes W.contents out.old out.new (ipfix_text_in intervals.entry plan.now export_time rows.old)) }
    ensures fault { IfErr result (λ fault. fault ≢ ExportFault.TooManyRows) }
{
    write_template(alloc, plan, export_time, out)?;
    let mut headers = Vec::new(alloc);
    let mut room = Vec::new(alloc);
    room.resize(MOST_OCTETS, 0)?;
    let message = room.as_mut_slice();
    for index in 0..rows.len().div_ceil(ROWS_A_MESSAGE) {
        let sequence = (ROWS_A_MESSAGE * index) as u32;
        let end = place_message(
            plan,
            intervals,
            rows,
            sequence,
            export_time,
            &mut headers,
            message,
        )?;
        out.write_all(&message[..end])?;
    }
    Ok(())
}
