//! The plan of a table, by what its text says of sampling.

ghost use Rattle.std.specs.Prelude.{IfErr, IfOk};
ghost use Rattle.flow_table.specs.Plans.{IsPlan};
ghost use Rattle.flow_plan_fields.specs.Tables.{IsNoTablePlan, IsTablePlan};

use crate::filtered_plan::FilteredPlan;
use crate::sampling::SamplingUse;
use crate::scaling::{ScaledPlan, ScalingFault, scale};
use element_registry::Elements;
use flow_estimates::Estimates;
use std::alloc::Global;

/// The plan of a table with its filter, the elements that name what it counts, and the estimates that its records need.
#[derive(Drop)]
pub struct TablePlan {
    pub elements: Elements,
    pub read: FilteredPlan,
    /// If counters are scaled.
    pub estimates: Option<Estimates>,
}

/// The plan of the table of what a text says: where counters are scaled the one that counts their estimates, and else
/// the one that it says.
pub fn table_plan(
    alloc: Global,
    elements: Elements,
    said: FilteredPlan,
) -> Result<TablePlan, ScalingFault>
    ensures ok { IfOk result (IsTablePlan elements said) }
    ensures err { IfErr result (IsNoTablePlan elements said) }
    ensures sound { IfOk result (λ t. IsPlan t.read.plan) }
{
    let FilteredPlan {
        plan,
        filter,
        sampling,
    } = said;
    if sampling != SamplingUse::Scale {
        return Ok(TablePlan {
            elements,
            read: FilteredPlan {
                plan,
                filter,
                sampling,
            },
            estimates: None,
        });
    }
    match scale(alloc, elements, &plan) {
        Ok(scaled) => {
            let ScaledPlan {
                elements,
                plan,
                estimates,
            } = scaled;
            Ok(TablePlan {
                elements,
                read: FilteredPlan {
                    plan,
                    filter,
                    sampling,
                },
                estimates: Some(estimates),
            })
        }
        Err(fault) => Err(fault),
    }
}
