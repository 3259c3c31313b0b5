//! Reading a plan with its filter.

ghost use Rattle.std.specs.Prelude.{IfOk, IfErr};
ghost use Rattle.flow_table.specs.Plans.{IsPlan};
ghost use Rattle.flow_plan_fields.specs.FilteredErrors.{IsFilteredPlanError};
ghost use Rattle.flow_plan_fields.specs.FilteredPlans.{IsFilteredPlanOf};

use crate::filtered_plan::FilteredPlan;
use crate::place::FilteredPlanError;
use crate::sampling::sampling_in;
use crate::wheres::read_filter;
use element_registry::Elements;
use flow_plan::{read_document, read_members};
use std::alloc::Global;

/// The plan and the filter of octets that are to be UTF-8. The document has the keys of a plan, which
/// [`read_plan_with`](flow_plan::read_plan_with) reads, and may have `where`, an array of tables: each is a condition
/// of an `element`, and has `in`, `not_in` or both, arrays of 1 to 64 texts. A record counts if all conditions hold.
/// It may have `sampling`, too: `"ignore"`, `"refuse"` or `"scale"`.
/// What the document says of maps is passed over: whoever reads them adds what they name to the elements.
/// Elements have the names that keys have, and a text says values as
/// [`ValueRange::read`](flow_filter::ValueRange::read) reads it.
///
/// The faults of the plan come first. Of the conditions it is the first fault of the first `[[where]]` that has one,
/// in the order of the text. The fault of `sampling` is the last.
pub fn read_filtered_plan(
    alloc: Global,
    elements: &Elements,
    octets: &[u8],
) -> Result<FilteredPlan, FilteredPlanError>
    ensures ok { IfOk result (IsFilteredPlanOf elements.now octets.now) }
    ensures err { IfErr result (IsFilteredPlanError elements.now octets.now) }
    ensures sound { IfOk result (λ read. IsPlan read.plan) }
{
    let mut table = match read_document(alloc, octets) {
        Ok(table) => table,
        Err(error) => return Err(FilteredPlanError::Plan(error)),
    };
    let sampling = sampling_in(&table);
    let value = table.remove("where");
    let _maps = table.remove("map");
    let _sampling = table.remove("sampling");
    let plan = match read_members(alloc, elements, &table) {
        Ok(plan) => plan,
        Err(error) => return Err(FilteredPlanError::Plan(error)),
    };
    let filter = match read_filter(alloc, elements, value) {
        Ok(filter) => filter,
        Err(error) => return Err(error),
    };
    match sampling {
        Some(sampling) => Ok(FilteredPlan {
            plan,
            filter,
            sampling,
        }),
        None => Err(FilteredPlanError::NoSampling),
    }
}
