//! Rows read from data records (RFC 7011, section 3.4.3).

ghost use Rattle.std.specs.Prelude.{◌≡◌, ℕ, true, false, None, length, IfOk, IfErr, IfSome};
ghost use Rattle.flow_table.specs.Reading.{projected};
ghost use Rattle.flow_table.specs.SameTables.{value_of};
ghost use Rattle.flow_merge.specs.InnerReading.{values_in};
ghost use Rattle.flow_merge.specs.RowFaults.{IsInterval, IsOutside, IsPutIn, IsRowFaultIn};
ghost use Rattle.flow_merge.specs.RowRecords.{AreOrdered, AreProjected, CanTakeRows, IsInTime, IsOfTemplate, IsRowRecordIn, IsWithin};

use crate::borders::interval_within;
use crate::row_fault::RowFault;
use crate::told_values::{ToldValues, read_values};
use flow_export::Intervals;
use flow_table::{Key, Plan, Row, TIME_LIMIT, project};
use ipfix_elements::Cell;
use ipfix_message::DataRecord;
use ipfix_wire::FIRST_TEMPLATE_ID;
use std::alloc::Global;

/// The row of a data record that an export with the plan's keys and counters has for it, put in these intervals, or the
/// first fault that fits.
#[tactic(auto, using(crate::proofs::RowsPut::row_put, crate::proofs::RowsPut::outside))]
pub fn read_row(
    alloc: Global,
    plan: &Plan,
    intervals: Intervals,
    data_record: &DataRecord,
) -> Result<Row, RowFault>
    requires { CanTakeRows intervals }
    ensures ok { IfOk result (λ row.
        IsRowRecordIn intervals.entry plan.now data_record.now (value_of row)) }
    ensures fault { IfErr result (IsRowFaultIn intervals.entry plan.now data_record.now) }
{
    if !is_of_template(data_record) {
        return Err(RowFault::Template);
    }
    let told = read_values(alloc, plan, data_record.fields.iter())?;
    let interval = place_of(plan, intervals, &told)?;
    if !are_projected(plan.keys(), &told.key) {
        return Err(RowFault::Prefix);
    }
    if told.flows == 0 {
        return Err(RowFault::Flows);
    }
    Ok(Row {
        interval,
        key: told.key,
        sums: told.sums,
        flows: told.flows,
    })
}

// Whether it is of the one template that exports have, and no options record.
fn is_of_template(data_record: &DataRecord) -> bool
    ensures yes { result ≡ true → IsOfTemplate data_record.now }
    ensures no { result ≡ false → IsOfTemplate data_record.now → ⊥ }
{
    data_record.domain == 0 && data_record.template == FIRST_TEMPLATE_ID && data_record.scope == 0
}

// The interval that the times are put in.
fn place_of(plan: &Plan, intervals: Intervals, told: &ToldValues) -> Result<u64, RowFault>
    requires { CanTakeRows intervals }
    ensures ok { IfOk result (λ k. IsPutIn intervals.entry plan.now k (values_in told.now)) }
    ensures in_time { IfOk result (IsInTime plan.now) }
    ensures fault { IfErr result (IsOutside intervals.entry plan.now (values_in told.now)) }
{
    match intervals {
        Intervals::OfPlan => interval_of(plan, told).ok_or(RowFault::Interval),
        Intervals::Between(borders) => {
            number_within(plan, borders, told.start, told.end).ok_or(RowFault::Border)
        }
    }
}

// The interval between borders that a time is within. Its number is that of an interval of the plan that begins in
// time, as totals ask of their rows: there are few borders.
#[tactic(auto, using(crate::proofs::AroundBorders::few_in_time))]
fn number_within(plan: &Plan, borders: &[u64], first: u64, last: u64) -> Option<u64>
    requires { AreOrdered borders.now }
    ensures some { IfSome result (λ k. IsWithin borders.now k first last) }
    ensures in_time { IfSome result (IsInTime plan.now) }
    ensures none { result ≡ None → (k : ℕ) → IsWithin borders.now k first last → ⊥ }
{
    let number = interval_within(borders, first, last)?;
    if number * u64::from(plan.length()) >= TIME_LIMIT {
        unreachable!();
    }
    Some(number)
}

// The interval of the plan whose first and last millisecond the times are, if it begins in time.
fn interval_of(plan: &Plan, told: &ToldValues) -> Option<u64>
    ensures some { IfSome result (λ k. IsInterval plan.now k (values_in told.now)) }
    ensures in_time { IfSome result (IsInTime plan.now) }
    ensures none { result ≡ None → (k : ℕ) → IsInterval plan.now k (values_in told.now) → ⊥ }
{
    let length = u64::from(plan.length());
    let starts = told.start < TIME_LIMIT && told.start % length == 0;
    if starts && told.end == told.start + (length - 1) {
        Some(told.start / length)
    } else {
        None
    }
}

// Whether no cell has bits after the prefix of its key.
fn are_projected(keys: &[Key], cells: &[Cell]) -> bool
    requires { length keys.now ≡ length cells.now }
    ensures yes { result ≡ true → AreProjected keys.now cells.now }
    ensures no { result ≡ false → AreProjected keys.now cells.now → ⊥ }
{
    for (key, cell) in keys.iter().zip(cells) {
        if !is_projected(*key, *cell) {
            return false;
        }
    }
    true
}

// Whether a cell has no bits after the prefix of its key.
fn is_projected(key: Key, cell: Cell) -> bool
    ensures yes { result ≡ true → projected key.prefix cell ≡ cell }
    ensures no { result ≡ false → projected key.prefix cell ≡ cell → ⊥ }
{
    project(key.prefix, cell) == cell
}
