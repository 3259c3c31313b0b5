//! What becomes of the rates at which exporters select packets.

ghost use Rattle.std.specs.Prelude.{◌≡◌};
ghost use Rattle.std.specs.Option.{option_map};
ghost use Rattle.toml.specs.Data.{get_member};
ghost use Rattle.toml.specs.View.{table_view, view};
ghost use Rattle.flow_plan_fields.specs.FilteredPlans as filtered;

use crate::documents::value_at;
use toml::{Table, Value};

/// What becomes of the rates at which exporters select packets.
#[derive(Clone, Copy, Debug, PartialEq, Eq)]
pub enum SamplingUse {
    /// They are ignored.
    Ignore,
    /// A sampled record makes that there is no table.
    Refuse,
    /// Counters are scaled by them.
    Scale,
}

/// What a document says of sampling: [`SamplingUse::Ignore`] if it says nothing, and `None` if its value is none of the
/// words that there are.
pub fn sampling_in(table: &Table) -> Option<SamplingUse>
    ensures { result ≡ filtered.sampling_of (get_member filtered.sampling_key (table_view table.now)) }
{
    match value_at(table, "sampling") {
        Some(value) => sampling_named(value),
        None => Some(SamplingUse::Ignore),
    }
}

fn sampling_named(value: &Value) -> Option<SamplingUse>
    ensures { result ≡ filtered.sampling_in (view value.now) }
{
    match value.as_str() {
        Some("ignore") => Some(SamplingUse::Ignore),
        Some("refuse") => Some(SamplingUse::Refuse),
        Some("scale") => Some(SamplingUse::Scale),
        _ => None,
    }
}
