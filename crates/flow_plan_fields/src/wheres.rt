//! The filter of a plan: the conditions of all its `[[where]]`.

ghost use Rattle.std.specs.Prelude.{◌≡◌, ◌++◌, List, map, OnOk};
ghost use Rattle.std.specs.Option.{option_map};
ghost use Rattle.toml.specs.View.{view};
ghost use Rattle.flow_plan_fields.specs.FilteredErrors.{PlacesFault, ReadsConditions, ReadsFilter};
ghost use Rattle.flow_plan_fields.specs.Wheres.{conditions_of};

use crate::place::{FilteredPlanError, Sides, WhereFault};
use crate::sides::read_where;
use element_registry::Elements;
use flow_filter::{Condition, Filter};
use flow_plan::PlanTextError;
use std::alloc::{AllocError, Global};
use toml::Value;

/// The filter of the value of `where`: one without conditions, if there is none.
pub fn read_filter(
    alloc: Global,
    elements: &Elements,
    value: Option<Value>,
) -> Result<Filter, FilteredPlanError>
    ensures { ReadsFilter elements.now (option_map view value) result }
{
    let Some(value) = value else {
        return Ok(Filter {
            conditions: Vec::new(alloc),
        });
    };
    let Some(values) = value.as_array() else {
        return Err(FilteredPlanError::NoConditions);
    };
    match read_conditions(alloc, elements, values.as_slice()) {
        Ok(conditions) => Ok(Filter { conditions }),
        Err(error) => Err(error),
    }
}

// The conditions of all `[[where]]`, in their order.
fn read_conditions(
    alloc: Global,
    elements: &Elements,
    values: &[Value],
) -> Result<Vec<Condition>, FilteredPlanError>
    ensures { ReadsConditions elements.now (map view values.now) result }
{
    let mut conditions = Vec::new(alloc);
    for (index, value) in values.iter().enumerate() {
        match read_where(alloc, elements, value) {
            Ok(sides) => push_sides(&mut conditions, sides)?,
            Err(fault) => return Err(place_fault(index + 1, fault)),
        }
    }
    Ok(conditions)
}

// A fault of the [[where]] that has this place.
fn place_fault(place: usize, fault: WhereFault) -> FilteredPlanError
    ensures { PlacesFault place fault result }
{
    match fault {
        WhereFault::OutOfMemory => FilteredPlanError::Plan(PlanTextError::OutOfMemory),
        fault => FilteredPlanError::Where { place, fault },
    }
}

// Puts the conditions of a `[[where]]` behind others.
fn push_sides(conditions: &mut Vec<Condition>, sides: Sides) -> Result<(), AllocError>
    ensures { OnOk result (conditions.new.items ≡ conditions.old.items ++ conditions_of sides) }
{
    let Sides { one_of, none_of } = sides;
    if let Some(condition) = one_of {
        conditions.push(condition)?;
    }
    if let Some(condition) = none_of {
        conditions.push(condition)?;
    }
    Ok(())
}
