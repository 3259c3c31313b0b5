//! The plan that a text says.

ghost use Rattle.std.specs.Prelude.{ℕ, List, IfNone, IfSome, ◌≡◌};
ghost use Rattle.std.specs.Option.{ForSome};
ghost use Rattle.flow_table.specs.Plans.{IsPlan};
ghost use Rattle.flow_plan_fields.specs.Tables.{IsSaid};
ghost use Rattle.report_writing.specs.Lines.{StaysFailed};
ghost use Rattle.report_writing.specs.Told.{AreToldTo};
ghost use Rattle.input_sources.specs.PlansTold.{IsLoadedPlan, TellsNoPlan, TellsNoText, table_of};

use crate::loaded_plan::LoadedPlan;
use crate::map_places::{write_key_fault, write_map_fault};
use crate::plan_fault::write_filtered_fault;
use crate::scaling_fault::write_scaling_fault;
use element_registry::Elements;
use flow_plan_fields::{
    PlanMaps, TablePlan, add_map_keys, read_filtered_plan, read_plan_maps, table_plan,
};
use input_files::ReadText;
use report_writing::{Verbosity, WriteLines, write_not_had_because};
use std::alloc::Global;

/// Reads the plan in the text of a path, which may name these elements. If there is no such text, or it is
/// no plan, the answer is `None` and `err` has a line that says so, if `verbosity` is verbose with the
/// system's reason; and for the fault of a text a second one that says where it is.
pub fn load_plan<T: ReadText, E: WriteLines>(
    files: &T,
    alloc: Global,
    elements: Elements,
    path: &str,
    verbosity: Verbosity,
    err: &mut E,
) -> Option<LoadedPlan>
    // The plan, its filter and its maps are those of the text that the path has, which is UTF-8. The keys of maps are
    // added to the elements, where counters are scaled their estimates, and nothing else.
    ensures text { ForSome result (λ loaded. (octets : List ℕ)
        × T.has files.now path.now octets
        × IsLoadedPlan elements octets loaded) }
    // Its numbers are in their ranges, its keys can be compared and its keys and counters are no times of flows, and
    // no element stands twice.
    ensures sound { ForSome result (λ loaded. IsPlan loaded.read.plan) }
    // Nothing is told if a plan was read.
    ensures silent { IfSome result (λ _. err.new ≡ err.old) }
    // Else why the path has none was told, and nothing else.
    ensures told { IfNone result (TellsNoPlan elements (T.has files.now path.now)
        (T.refuses files.now path.now) verbosity path.now
        (AreToldTo E.lines err.old err.new)) }
    ensures kept { StaysFailed E.lines err.old err.new }
{
    let octets = match files.read_text(alloc, path) {
        Ok(octets) => octets,
        Err(reason) => {
            let _ = write_not_had_because(verbosity, "open", path, reason, err);
            return None;
        }
    };
    load_plan_text(alloc, elements, &octets, err)
}

/// Reads the plan in a text, which may name these elements. If it is no plan, the answer is `None`, and `err` has the lines
/// that say why and where.
pub fn load_plan_text<E: WriteLines>(
    alloc: Global,
    elements: Elements,
    octets: &[u8],
    err: &mut E,
) -> Option<LoadedPlan>
    ensures text { ForSome result (IsLoadedPlan elements octets.now) }
    ensures sound { ForSome result (λ loaded. IsPlan loaded.read.plan) }
    ensures silent { IfSome result (λ _. err.new ≡ err.old) }
    ensures told { IfNone result (TellsNoText elements octets.now
        (AreToldTo E.lines err.old err.new)) }
    ensures kept { StaysFailed E.lines err.old err.new }
{
    let maps = match read_plan_maps(alloc, &elements, octets) {
        Ok(maps) => maps,
        Err(error) => {
            let _ = write_map_fault(&elements, &error, err);
            return None;
        }
    };
    let elements = match add_map_keys(alloc, elements, &maps.keys) {
        Ok(elements) => elements,
        Err(fault) => {
            let _ = write_key_fault(fault, err);
            return None;
        }
    };
    let said = match read_filtered_plan(alloc, &elements, octets) {
        Ok(said) => said,
        Err(error) => {
            let _ = write_filtered_fault(&elements, &error, err);
            return None;
        }
    };
    match table_plan(alloc, elements, said) {
        Ok(table) => Some(loaded_of(maps, table)),
        Err(fault) => {
            let _ = write_scaling_fault(fault, err);
            None
        }
    }
}

// What is loaded of a text.
fn loaded_of(maps: PlanMaps, table: TablePlan) -> LoadedPlan
    requires { IsSaid table.elements table.read table.estimates }
    ensures maps_are { result.maps ≡ maps }
    ensures table_is { table_of result ≡ table }
{
    let TablePlan {
        elements,
        read,
        estimates,
    } = table;
    LoadedPlan {
        read,
        elements,
        maps,
        estimates,
    }
}
