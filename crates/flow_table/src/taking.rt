//! Taking data records into totals and a tally.

ghost use Rattle.std.specs.Prelude.{◌≡◌, ◌++◌, ◌∷◌, [], List, OnOk, IfOk};
ghost use Rattle.std.specs.Result.{result_err};
ghost use Rattle.ipfix_message.specs.declared.record.DataRecord.{DataRecord};
ghost use Rattle.flow_table.specs.Partials.{HoldsTable, LargeWith, NamesRow, NotesMore, StandsBy, totals_of_one};
ghost use Rattle.flow_table.specs.Reading.{class_of};
ghost use Rattle.flow_table.specs.Readings.{IsUsedBy};
ghost use Rattle.flow_table.specs.Rows.{AddsIfOk, AreRowsOf, StaySmall};
ghost use Rattle.flow_table.specs.TableFaults.{OnSumTooLarge};

use crate::adding::{Room, add_flow};
use crate::class::Class;
use crate::flow::Flow;
use crate::missing::Missing;
use crate::plan::Plan;
use crate::reading::{Reading, read, read_counters};
use crate::rows::Rows;
use crate::table_fault::TableFault;
use crate::tally::Tally;
use ipfix_message::DataRecord;

// Adds the shares of a used record, the words of whose key were read, to the totals.
fn take_flow(
    plan: &Plan,
    rows: &mut Rows,
    room: &mut Room,
    missing: &mut Missing,
    data_record: &DataRecord,
    flow: Flow,
) -> Result<(), TableFault>
    requires { IsUsedBy plan.now data_record.now flow room.old.words.items }
    ensures rows { AreRowsOf plan.now rows.old → AreRowsOf plan.now rows.new }
    ensures ok { AddsIfOk result plan.now rows.old
        (totals_of_one plan.now data_record.now) rows.new }
    ensures fits { OnOk result (StaySmall plan.now rows.old rows.new) }
    ensures large { AreRowsOf plan.now rows.old → OnSumTooLarge result
        (LargeWith plan.now rows.old (totals_of_one plan.now data_record.now) room.new) }
    ensures missing { OnOk result
        (NotesMore plan.now missing.old (data_record.now ∷ []) missing.new) }
{
    read_counters(
        plan.counters(),
        data_record,
        &mut room.counters,
        &mut missing.counters,
    )?;
    add_flow(plan, rows, flow, room)
}

/// Takes a record into the totals, the tally and what records lack, and answers its class.
pub fn take(
    plan: &Plan,
    rows: &mut Rows,
    tally: &mut Tally,
    missing: &mut Missing,
    room: &mut Room,
    data_record: &DataRecord,
) -> Result<Class, TableFault>
    ensures class { IfOk result (λ class. class ≡ class_of plan.now data_record.now) }
    ensures stands { (rs : List DataRecord) → HoldsTable plan.now rows.old tally.old rs
        → StandsBy (result_err result) plan.now rows.new tally.new (rs ++ data_record.now ∷ []) }
    ensures names { (rs : List DataRecord) → HoldsTable plan.now rows.old tally.old rs
        → NamesRow (result_err result) plan.now room.new (rs ++ data_record.now ∷ []) }
    ensures missing { OnOk result
        (NotesMore plan.now missing.old (data_record.now ∷ []) missing.new) }
{
    room.last = None;
    match read(plan, data_record, room.interval, &mut room.words)? {
        Reading::Left(left_out) => {
            let class = left_out.class();
            tally.count(class)?;
            missing.note(left_out);
            Ok(class)
        }
        Reading::Used(flow) => {
            tally.count(Class::Used)?;
            take_flow(plan, rows, room, missing, data_record, flow)?;
            Ok(Class::Used)
        }
    }
}
