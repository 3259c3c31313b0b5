//! The caller of `flow_table` in its `CALLING.md`. The test of `memory` calls it.

ghost use Rattle.std.specs.Prelude.{◌∷◌, [], IfOk};
ghost use Rattle.flow_table.specs.Fitting.{FitsPlan};
ghost use Rattle.flow_table.specs.Tables.{IsTable};

use flow_table::{Partial, Plan, Table, TableFault};
use ipfix_message::DataRecord;
use std::alloc::Global;

/// The table of two records, each of which is added to a partial table of its own.
pub fn table_of_both(
    alloc: Global,
    plan: &Plan,
    one: &DataRecord,
    other: &DataRecord,
) -> Result<Table, TableFault>
    ensures table { IfOk result (IsTable plan.now (one.now ∷ other.now ∷ [])) }
    ensures fits { IfOk result (FitsPlan plan.now) }
{
    let mut all = Partial::new(alloc, plan)?;
    let mut more = Partial::new(alloc, plan)?;
    all.add(one)?;
    more.add(other)?;
    all.merge(more)?;
    all.finish()
}
