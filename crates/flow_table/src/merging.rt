//! Merging the totals of two lists of flows.

ghost use Rattle.std.specs.Prelude.{◌≡◌, ◌++◌, List};
ghost use Rattle.std.specs.Result.{result_err};
ghost use Rattle.ipfix_message.specs.declared.record.DataRecord.{DataRecord};
ghost use Rattle.flow_table.specs.Partials.{HoldsTable, NamesRow, StandsBy};

use crate::adding::Room;
use crate::plan::Plan;
use crate::rows::Rows;
use crate::table_fault::TableFault;
use crate::tally::{Tally, together};
use std::alloc::Global;
use std::mem;

/// Adds the totals and the tally of other records under the same plan. After an `Err` there are no rows, and after
/// `SumTooLarge` the room has the interval and the key of a row that is too large, if records aren't too many.
pub fn join(
    alloc: Global,
    plan: &Plan,
    rows: &mut Rows,
    tally: &mut Tally,
    others: Rows,
    more: &Tally,
    room: &mut Room,
) -> Result<(), TableFault>
    ensures stands { (rs qs : List DataRecord) → HoldsTable plan.now rows.old tally.old rs
        → HoldsTable plan.now others more.now qs
        → StandsBy (result_err result) plan.now rows.new tally.new (rs ++ qs) }
    ensures names { (rs qs : List DataRecord) → HoldsTable plan.now rows.old tally.old rs
        → HoldsTable plan.now others more.now qs
        → NamesRow (result_err result) plan.now room.new (rs ++ qs) }
{
    room.last = None;
    *tally = together(tally, more)?;
    let own = mem::replace(rows, Rows::new(alloc, plan));
    match own.merge(others, &mut room.words) {
        Ok(both) => {
            *rows = both;
            Ok(())
        }
        Err(fault) => {
            room.take_interval();
            Err(fault)
        }
    }
}
