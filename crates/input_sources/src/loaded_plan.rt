//! A plan that was loaded.

ghost use Rattle.flow_plan_fields.specs.Tables.{IsSaid};

use element_registry::Elements;
use flow_estimates::Estimates;
use flow_plan_fields::{FilteredPlan, PlanMaps};

/// A plan with its filter and its maps, and the elements that it was read with: by these its text names its keys,
/// counters and conditions, and what is written under the plan names them. Keys of maps are among them, and where
/// counters are scaled their estimates, which the plan counts.
#[derive(Drop)]
pub struct LoadedPlan {
    pub read: FilteredPlan,
    pub elements: Elements,
    pub maps: PlanMaps,
    /// The estimates that its records need, if counters are scaled.
    pub estimates: Option<Estimates>,
    ghost said: { IsSaid elements read estimates },
}
