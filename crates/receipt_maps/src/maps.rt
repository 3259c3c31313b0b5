//! The maps of files, and what a receipt says of these files.

ghost use Rattle.std.specs.Prelude.{◌≡◌, IfOk, map};
ghost use Rattle.table_receipts.specs.Values.{file_value};
ghost use Rattle.input_sources.specs.declared.maps.LoadedMap.{LoadedMap as Loaded};
ghost use Rattle.receipt_maps.specs.MapsTold.{AreMapsWith, file_told, files_told};

use flow_maps::Maps;
use flow_plan_fields::{NamedKey, map_keys};
use input_sources::LoadedMap;
use prefix_numbers::PrefixMap;
use std::alloc::{AllocError, Global};
use std::collections::VecDeque;
use table_receipts::FileReceipt;

/// The maps of a plan, and what a receipt says of their files.
#[derive(Drop)]
pub struct MapsOfPlan {
    /// The maps, and the plan's keys that look something up in them, if it names maps.
    pub maps: Option<Maps>,
    /// The file of each map, in the plan's order.
    pub files: Vec<FileReceipt>,
}

/// The maps that were loaded from files of these paths, with the keys that look something up.
pub fn maps_with(
    alloc: Global,
    paths: &[&str],
    loaded: Vec<LoadedMap>,
    keys: &[NamedKey],
) -> Result<MapsOfPlan, AllocError>
    ensures { IfOk result (AreMapsWith (map (λ p. p.now) paths.now) loaded.items keys.now) }
{
    let files = files_of(alloc, paths, &loaded)?;
    let keys = map_keys(alloc, keys)?;
    let maps = maps_in(alloc, loaded)?;
    Ok(MapsOfPlan {
        maps: Some(Maps { maps, keys }),
        files,
    })
}

// What a receipt says of files of these paths.
fn files_of(
    alloc: Global,
    mut paths: &[&str],
    mut loaded: &[LoadedMap],
) -> Result<Vec<FileReceipt>, AllocError>
    ensures { IfOk result (λ files. map file_value files.items
        ≡ files_told (map (λ p. p.now) paths.entry.now) loaded.entry.now) }
{
    let mut files = Vec::new(alloc);
    while let [path, later @ ..] = paths {
        let [map, rest @ ..] = loaded else {
            return Ok(files);
        };
        files.push(file_of(alloc, path, map)?)?;
        paths = later;
        loaded = rest;
    }
    Ok(files)
}

fn file_of(alloc: Global, path: &str, loaded: &LoadedMap) -> Result<FileReceipt, AllocError>
    ensures { IfOk result (λ file. file_value file ≡ file_told path.now loaded.now) }
{
    Ok(FileReceipt {
        name: String::from_str(alloc, path)?,
        octets: loaded.octets,
        sha256: loaded.sha256,
    })
}

// The maps without what is said of their files.
fn maps_in(alloc: Global, loaded: Vec<LoadedMap>) -> Result<Vec<PrefixMap>, AllocError>
    ensures { IfOk result (λ maps. maps.items ≡ map (λ (l : Loaded). l.map) loaded.items) }
{
    let mut waiting = VecDeque::from_vec(loaded);
    let mut maps = Vec::new(alloc);
    while let Some(next) = waiting.pop_front() {
        let LoadedMap { map, .. } = next;
        maps.push(map)?;
    }
    Ok(maps)
}
