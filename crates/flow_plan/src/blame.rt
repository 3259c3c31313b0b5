//! What makes no plan of the values of a document.

ghost use Rattle.std.specs.Prelude.{◌≡◌, ◌<◌, true, Some, IfOk, length};
ghost use Rattle.std.specs.List.{list_all, position_from};
ghost use Rattle.flow_table.specs.PlanFaults.{IsFirstFault};
ghost use Rattle.flow_table.specs.Plans.{is_value, repeat_fault};
ghost use Rattle.flow_plan.specs.PlanTexts.{fault_in};
ghost use Rattle.flow_plan.specs.Blames.{is_unfit_prefix, is_unfit_counter, is_unfit_key, IsPlace, NamesAll};
ghost use Rattle.flow_plan.specs.Shown.{shown, shown_all, IsTextAt};

use crate::error::{PlanKey, PlanPlace};
use crate::fields::Fields;
use crate::repeats::first_repeat;
use element_registry::Elements;
use flow_table::{Key, PlanFault, Totals, is_key, is_prefix_of, may_count};
use ipfix_wire::ElementId;
use std::alloc::{AllocError, Global};

/// What gives the values of a document this fault of a plan, where their texts name these keys and
/// counters.
pub fn place_of(
    alloc: Global,
    elements: &Elements,
    fields: &Fields,
    keys: &[Key],
    counters: &[ElementId],
    fault: PlanFault,
) -> Result<PlanPlace, AllocError>
    requires named { NamesAll elements.now (shown fields.now) keys.now counters.now }
    requires first { IsFirstFault
        (fault_in elements.now (shown fields.now) keys.now counters.now) fault }
    ensures { IfOk result (IsPlace elements.now (shown fields.now) fault) }
{
    match fault {
        PlanFault::Length => Ok(PlanPlace::Value {
            key: PlanKey::IntervalMs,
        }),
        PlanFault::Spread => Ok(PlanPlace::Value {
            key: PlanKey::MaxSpread,
        }),
        PlanFault::KeyCount => Ok(PlanPlace::Count {
            key: PlanKey::Keys,
            count: fields.keys.len(),
        }),
        PlanFault::CounterCount => Ok(PlanPlace::Count {
            key: PlanKey::Counters,
            count: fields.counters.len(),
        }),
        PlanFault::KeyKind => {
            let index = unfit_key(elements, keys).unwrap();
            text_at(alloc, PlanKey::Keys, &fields.keys, index)
        }
        PlanFault::Prefix => {
            let index = unfit_prefix(keys).unwrap();
            text_at(alloc, PlanKey::Keys, &fields.keys, index)
        }
        PlanFault::CounterKind => {
            let index = unfit_counter(elements, fields.choices.totals, counters).unwrap();
            text_at(alloc, PlanKey::Counters, &fields.counters, index)
        }
        PlanFault::Repeated => repeated_text(alloc, elements, fields, keys, counters),
        PlanFault::OutOfMemory => Err(AllocError),
    }
}

// The first text whose element stands again.
fn repeated_text(
    alloc: Global,
    elements: &Elements,
    fields: &Fields,
    keys: &[Key],
    counters: &[ElementId],
) -> Result<PlanPlace, AllocError>
    requires named { NamesAll elements.now (shown fields.now) keys.now counters.now }
    requires values { list_all is_value counters.now ≡ true }
    requires repeated { repeat_fault keys.now counters.now ≡ Some PlanFault.Repeated }
    ensures { IfOk result (IsPlace elements.now (shown fields.now) PlanFault.Repeated) }
{
    let index = first_repeat(alloc, keys, counters)?.unwrap();
    if index < keys.len() {
        text_at(alloc, PlanKey::Keys, &fields.keys, index)
    } else {
        text_at(
            alloc,
            PlanKey::Counters,
            &fields.counters,
            index - keys.len(),
        )
    }
}

// The text at this place among those of a key.
fn text_at(
    alloc: Global,
    key: PlanKey,
    texts: &[&str],
    index: usize,
) -> Result<PlanPlace, AllocError>
    requires { index < length texts.now }
    ensures { IfOk result (IsTextAt key (shown_all texts.now) index) }
{
    Ok(PlanPlace::Text {
        key,
        text: String::from_str(alloc, texts[index])?,
    })
}

// The place of the first key whose element may be none.
fn unfit_key(elements: &Elements, keys: &[Key]) -> Option<usize>
    ensures { result ≡ position_from (is_unfit_key elements.now) 0 keys.now }
{
    keys.iter().position(|key| !is_key(elements, key.element))
}

// The place of the first key that cannot have its prefix.
fn unfit_prefix(keys: &[Key]) -> Option<usize>
    ensures { result ≡ position_from is_unfit_prefix 0 keys.now }
{
    keys.iter()
        .position(|key| !is_prefix_of(key.element, key.prefix))
}

// The place of the first element that may be no counter.
fn unfit_counter(elements: &Elements, totals: Totals, counters: &[ElementId]) -> Option<usize>
    ensures { result ≡ position_from (is_unfit_counter elements.now totals) 0 counters.now }
{
    counters
        .iter()
        .position(|counter| !may_count(elements, totals, *counter))
}
