//! Reading what a plan says of maps.

ghost use Rattle.std.specs.Prelude.{IfErr, IfOk};
ghost use Rattle.toml.specs.View.{table_view};
ghost use Rattle.flow_plan_fields.specs.Errors.{AreNoPlanMaps, ArePlanMaps, ReadsDocument};

use crate::documents::{key_texts, values_at};
use crate::error::PlanMapsError;
use crate::keys::keys_among;
use crate::map_tables::read_maps;
use crate::named::PlanMaps;
use element_registry::Elements;
use flow_plan::read_document;
use std::alloc::Global;
use toml::Table;

/// What octets that are to be a plan say of maps. The document may have `map`, an array of tables: each has a `name` of
/// letters, digits, `_` and `-`, which no other has, and a `file`, a text, and nothing else. Where a text of `keys`, or
/// the `element` of a condition, is `NAME(ELEMENT)` or `NAME(ELEMENT, ELEMENT)` and so on, NAME is that of a map, and
/// each ELEMENT is one of addresses, it is a key of that map. The n-th has the number n under [`EXAMPLES_PEN`](crate::EXAMPLES_PEN).
/// Nothing else is read of the document.
///
/// The faults of the document come first; then that of the first `[[map]]` that has one.
pub fn read_plan_maps(
    alloc: Global,
    elements: &Elements,
    octets: &[u8],
) -> Result<PlanMaps, PlanMapsError>
    ensures ok { IfOk result (ArePlanMaps elements.now octets.now) }
    ensures err { IfErr result (AreNoPlanMaps octets.now) }
{
    match read_document(alloc, octets) {
        Ok(table) => read_table(alloc, elements, &table),
        Err(error) => Err(PlanMapsError::Document(error)),
    }
}

fn read_table(alloc: Global, elements: &Elements, table: &Table) -> Result<PlanMaps, PlanMapsError>
    ensures { ReadsDocument elements.now (table_view table.now) result }
{
    let maps = read_maps(alloc, values_at(table, "map"))?;
    let texts = key_texts(alloc, table)?;
    let keys = keys_among(alloc, elements, &maps, &texts)?;
    Ok(PlanMaps { maps, keys })
}
