//! How a table is written.

ghost use Rattle.std.specs.Prelude.{◌≡◌, ◌↔◌, length, IsErrOf, OnOk};
ghost use Rattle.flow_export.specs.AnyTables.{rows_of, table_in};
ghost use Rattle.flow_table.specs.Fitting.{FitsPlan};
ghost use Rattle.output_tables.specs.TableTexts.{IsTooMany, WritesAny};

use element_registry::Elements;
use flow_export::{AnyTable, ExportFault, Format, TableText, write_table};
use flow_table::Plan;
use std::alloc::Global;
use std::io::Write;

/// How a table is written.
#[derive(Clone, Copy, Debug, PartialEq, Eq)]
pub struct Output {
    pub format: Format,
    /// The export time of messages of IPFIX, in seconds since 1970-01-01 UTC. CSV and JSON have none.
    pub time: u32,
}

/// Writes a table, with the names that `elements` gives keys and counters, and sees to it that nothing is
/// left in the writer's buffer.
///
/// The fault is `TooManyRows` exactly if a table is written as IPFIX and has 2^32 rows or more; then nothing is written.
pub fn export<W: Write>(
    alloc: Global,
    elements: &Elements,
    plan: &Plan,
    table: &AnyTable,
    output: Output,
    out: &mut W,
) -> Result<(), ExportFault>
    requires { FitsPlan plan.now (table_in table.now) }
    ensures ok { OnOk result (WritesAny elements.now plan.now output
        (W.contents out.old) (W.contents out.new) table.now) }
    ensures many { IsErrOf result ExportFault.TooManyRows
        ↔ IsTooMany output.format (length (rows_of table.now)) }
    ensures untouched { IsErrOf result ExportFault.TooManyRows → out.new ≡ out.old }
{
    let text = match output.format {
        Format::Csv => TableText::Csv(elements),
        Format::Json => TableText::Json(elements),
        Format::Ipfix => TableText::Ipfix(output.time),
    };
    write_table(alloc, plan, table, &text, out)?;
    out.flush()?;
    Ok(())
}
