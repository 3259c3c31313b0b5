//! The finished table of totals.

ghost use Rattle.std.specs.Prelude.{◌≡◌, List, IfOk, IfErr};
ghost use Rattle.ipfix_message.specs.declared.record.DataRecord.{DataRecord};
ghost use Rattle.flow_table.specs.Missing.{missing_of};
ghost use Rattle.flow_table.specs.Partials.{HoldsTable};
ghost use Rattle.flow_table.specs.Tables.{IsTable};
ghost use Rattle.flow_table.specs.declared.table_fault.TableFault.TheVariants.{OutOfMemory};

use crate::flat_table::FlatTable;
use crate::missing::Missing;
use crate::plan::Plan;
use crate::rows::Rows;
use crate::table_fault::TableFault;
use crate::tally::Tally;
use std::alloc::Global;

/// The table of the records whose totals and tally these are, and which lack this.
pub fn finish_table(
    alloc: Global,
    plan: Plan,
    rows: Rows,
    tally: Tally,
    missing: Missing,
) -> Result<FlatTable, TableFault>
    ensures table { IfOk result (λ table. (rs : List DataRecord)
        → HoldsTable plan rows tally rs → missing ≡ missing_of plan rs → IsTable plan rs table) }
    ensures err { IfErr result (λ e. e ≡ OutOfMemory) }
{
    Ok(FlatTable::of(alloc, plan, rows, tally, missing)?)
}
