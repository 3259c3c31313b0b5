//! What the fields of an export's record tell.

ghost use Rattle.std.specs.Prelude.{IfOk, IfErr};
ghost use Rattle.ipfix_elements.specs.Elements.{iana};
ghost use Rattle.flow_merge.specs.InnerReading.{Refuses, TellsNumber, TellsSome, values_in};
ghost use Rattle.flow_merge.specs.RowFaults.{FieldValues, Tell};

use crate::field_reading::{next_cells, next_number, next_numbers};
use crate::row_fault::RowFault;
use flow_table::Plan;
use ipfix_elements::{Cell, iana};
use ipfix_message::FieldIter;
use ipfix_wire::ElementId;
use std::alloc::Global;

/// What the fields of an export's record tell.
#[derive(Debug, Drop)]
pub(crate) struct ToldValues {
    /// The start of the interval in milliseconds.
    pub start: u64,
    /// The end of the interval in milliseconds.
    pub end: u64,
    /// A cell for each key.
    pub key: Vec<Cell>,
    /// A sum for each counter.
    pub sums: Vec<u64>,
    /// The number of flows.
    pub flows: u64,
}

// The number that the next field tells, if that is one of this element of IANA's registry.
fn read_number(fields: &mut FieldIter, number: u16) -> Result<u64, RowFault>
    ensures ok { IfOk result (λ n. TellsNumber (iana number) fields.old n fields.new) }
    ensures fault { IfErr result (Refuses (TellsSome (TellsNumber (iana number) fields.old))) }
{
    next_number(fields, ElementId::iana(number)).ok_or(RowFault::Fields)
}

/// What fields tell that are those of the plan's exports. Other fields are refused.
pub(crate) fn read_values(
    alloc: Global,
    plan: &Plan,
    mut fields: FieldIter,
) -> Result<ToldValues, RowFault>
    ensures ok { IfOk result (λ told. Tell plan.now fields.entry (values_in told)) }
    ensures fault { IfErr result (Refuses ((v : FieldValues) × Tell plan.now fields.entry v)) }
{
    let start = read_number(&mut fields, iana::FLOW_START_MILLISECONDS)?;
    let end = read_number(&mut fields, iana::FLOW_END_MILLISECONDS)?;
    let key = next_cells(alloc, plan.keys(), plan.kinds(), &mut fields)?;
    let sums = next_numbers(alloc, plan.counters(), &mut fields)?;
    let flows = read_number(&mut fields, iana::ORIGINAL_FLOWS_PRESENT)?;
    if fields.next().is_some() {
        return Err(RowFault::Fields);
    }
    Ok(ToldValues {
        start,
        end,
        key,
        sums,
        flows,
    })
}
