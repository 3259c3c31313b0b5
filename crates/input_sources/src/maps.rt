//! Reading the files of maps.

ghost use Rattle.std.specs.Prelude.{◌≡◌, ℕ, List, IfNone, IfSome};
ghost use Rattle.flow_plan.specs.Shown.{shown_all};
ghost use Rattle.prefix_numbers.specs.Maps.{IsMapOf};
ghost use Rattle.report_writing.specs.Lines.{StaysFailed};
ghost use Rattle.report_writing.specs.Told.{AreToldTo};
ghost use Rattle.input_sources.specs.MapsLoaded.{AreMapsOf, IsLoadedFrom, IsMapAt, TellsNoMap, TellsNoMaps};

use crate::map_places::write_file_fault;
use input_files::ReadText;
use prefix_numbers::{MapError, MapFault, PrefixMap, read_prefix_map};
use report_writing::{Verbosity, WriteLines, write_not_had_because};
use sha2::{Digest, Sha256};
use std::alloc::Global;

/// What is told where there is no memory for another map.
const WITHOUT_MEMORY: MapError = MapError {
    fault: MapFault::OutOfMemory,
    line: 0,
};

/// A map, and the text that it was read from.
#[derive(Drop)]
pub struct LoadedMap {
    pub map: PrefixMap,
    /// How many octets the text has.
    pub octets: u64,
    /// The SHA-256 (FIPS 180-4) of these octets.
    pub sha256: [u8; 32],
}

/// The maps in the texts of some paths, in their order; each path is read once. If one can't be had, or has a fault, the
/// answer is `None`, no file after it is read, and `err` has a line that says so, if `verbosity` is verbose with the
/// system's reason.
pub fn load_maps<T: ReadText, E: WriteLines>(
    files: &T,
    alloc: Global,
    paths: &[&str],
    verbosity: Verbosity,
    err: &mut E,
) -> Option<Vec<LoadedMap>>
    // Each map, and the number and the digest of its octets, are of one text that the path has.
    ensures maps { IfSome result
        (λ all. AreMapsOf (T.has files.now) (shown_all paths.now) all.items) }
    // Nothing is told if all were read.
    ensures silent { IfSome result (λ _. err.new ≡ err.old) }
    ensures told { IfNone result (TellsNoMaps (T.has files.now) (T.refuses files.now) verbosity
        (shown_all paths.now) (AreToldTo E.lines err.old err.new)) }
    ensures kept { StaysFailed E.lines err.old err.new }
{
    let mut maps = Vec::new(alloc);
    let mut left = paths;
    while let [path, rest @ ..] = left {
        let Some(map) = load_map(files, alloc, path, verbosity, err) else {
            return None;
        };
        let Ok(()) = maps.push(map) else {
            let _ = write_file_fault(path, WITHOUT_MEMORY, err);
            return None;
        };
        left = rest;
    }
    Some(maps)
}

// The map in the text of a path.
fn load_map<T: ReadText, E: WriteLines>(
    files: &T,
    alloc: Global,
    path: &str,
    verbosity: Verbosity,
    err: &mut E,
) -> Option<LoadedMap>
    ensures map { IfSome result (IsMapAt (T.has files.now) path.now) }
    ensures silent { IfSome result (λ _. err.new ≡ err.old) }
    ensures told { IfNone result (TellsNoMap (T.has files.now) (T.refuses files.now) verbosity
        path.now (AreToldTo E.lines err.old err.new)) }
    ensures kept { StaysFailed E.lines err.old err.new }
{
    let octets = match files.read_text(alloc, path) {
        Ok(octets) => octets,
        Err(reason) => {
            let _ = write_not_had_because(verbosity, "open", path, reason, err);
            return None;
        }
    };
    match read_prefix_map(alloc, &octets) {
        Ok(map) => Some(loaded_from(map, &octets)),
        Err(error) => {
            let _ = write_file_fault(path, error, err);
            None
        }
    }
}

// A map, with what is to be said of the text that gave it.
fn loaded_from(map: PrefixMap, text: &[u8]) -> LoadedMap
    requires { IsMapOf text.now map }
    ensures { IsLoadedFrom text.now result }
{
    LoadedMap {
        map,
        octets: text.len() as u64,
        sha256: Sha256::digest(text),
    }
}
