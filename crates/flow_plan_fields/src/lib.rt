//! What the text of a plan says beside the plan: its conditions and the use of sampling; the maps that it names, with its keys
//! whose values are their numbers; what it wants to know of sessions; and the estimates that it counts in place of counters.
#![tactic(auto)]

mod addresses;
mod documents;
mod error;
mod estimates;
mod filtered_plan;
mod filtered_reading;
mod keys;
mod kinds;
mod known;
mod known_estimates;
mod map_tables;
mod named;
mod place;
mod reading;
mod sampling;
mod scaling;
mod sides;
mod table_plans;
mod wanted;
mod wheres;

pub use error::{MapTableFault, PlanMapsError};
pub use estimates::estimated;
pub use filtered_plan::FilteredPlan;
pub use filtered_reading::read_filtered_plan;
pub use keys::map_keys;
pub use known::add_map_keys;
pub use named::{EXAMPLES_PEN, MAX_MAP_KEYS, NamedKey, NamedMap, PlanMaps};
pub use place::{FilteredPlanError, Sides, WhereFault, side_key};
pub use reading::read_plan_maps;
pub use sampling::SamplingUse;
pub use scaling::{ScaledPlan, ScalingFault, scale};
pub use table_plans::{TablePlan, table_plan};
pub use wanted::{refuses_sampled, wanted_context, wanted_options};
