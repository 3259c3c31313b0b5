//! The maps of a plan, from the texts of their files.

ghost use Rattle.std.specs.Prelude.{◌≡◌, ◌++◌, IfErr, IfOk, OnOk, map, string_bytes};
ghost use Rattle.std.specs.Option.{option_copied, option_map};
ghost use Rattle.std.specs.Path.{rsplit_once, slash};
ghost use Rattle.report_writing.specs.Lines.{StaysFailed};
ghost use Rattle.report_writing.specs.Told.{AreToldTo};
ghost use Rattle.command_collect.specs.CollectLines.{collect_fault_line};
ghost use Rattle.cli_inputs.specs.MapFiles.{AreMapsOfPlan, HasNoMaps, folder_of, is_absolute, map_paths, path_from};

use command_collect::write_collect_fault;
use flow_collect::CollectFault;
use flow_plan_fields::{NamedMap, PlanMaps};
use input_files::ReadText;
use input_sources::load_maps;
use receipt_maps::{MapsOfPlan, maps_with};
use report_writing::{Status, Verbosity, WriteLines};
use std::alloc::{AllocError, Global};

/// The maps that the plan of a path names, from the texts of their files. If a file can't be had, or has a fault, the
/// answer is `NotOpened`, and if memory runs out beside that, `Failed`; `err` has a line.
pub fn load_plan_maps<T: ReadText, E: WriteLines>(
    texts: &T,
    alloc: Global,
    plan: &str,
    named: &PlanMaps,
    verbosity: Verbosity,
    err: &mut E,
) -> Result<MapsOfPlan, Status>
    // The maps are those of the files that the plan names, and what is said of each file is of the text that gave its map.
    ensures maps { IfOk result (AreMapsOfPlan (T.has texts.now) plan.now named.now) }
    // Nothing is told if all were read.
    ensures silent { IfOk result (λ _. err.new ≡ err.old) }
    // Else why not was told: of the first file that gives no map, or that memory ran out.
    ensures told { IfErr result (HasNoMaps (T.has texts.now) plan.now (T.refuses texts.now) named.now
        verbosity (AreToldTo E.lines err.old err.new)) }
    ensures kept { StaysFailed E.lines err.old err.new }
{
    if named.maps.is_empty() {
        return Ok(MapsOfPlan {
            maps: None,
            files: Vec::new(alloc),
        });
    }
    let Ok(paths) = paths_of(alloc, plan, &named.maps) else {
        return Err(without_memory(err));
    };
    let Ok(words) = words_of(alloc, &paths) else {
        return Err(without_memory(err));
    };
    let Some(loaded) = load_maps(texts, alloc, &words, verbosity, err) else {
        return Err(Status::NotOpened);
    };
    match maps_with(alloc, &words, loaded, &named.keys) {
        Ok(maps) => Ok(maps),
        Err(AllocError) => Err(without_memory(err)),
    }
}

// There was no memory for the names of files and what is told of them.
fn without_memory<E: WriteLines>(err: &mut E) -> Status
    ensures failed { result ≡ Status.Failed }
    ensures told { AreToldTo E.lines err.old err.new
        (collect_fault_line CollectFault.OutOfMemory) }
    ensures kept { StaysFailed E.lines err.old err.new }
{
    let _ = write_collect_fault(CollectFault::OutOfMemory, err);
    Status::Failed
}

// The paths of the files of a plan's maps.
fn paths_of(alloc: Global, plan: &str, mut maps: &[NamedMap]) -> Result<Vec<String>, AllocError>
    ensures { IfOk result (λ paths. map string_bytes paths.items
        ≡ map_paths plan.now maps.entry.now) }
{
    let mut paths = Vec::new(alloc);
    while let [map, rest @ ..] = maps {
        paths.push(path_beside(alloc, plan, map.file.as_str())?)?;
        maps = rest;
    }
    Ok(paths)
}

fn words_of(alloc: Global, mut texts: &[String]) -> Result<Vec<&str>, AllocError>
    ensures { IfOk result (λ words. map (λ w. w.now) words.items
        ≡ map string_bytes texts.entry.now) }
{
    let mut words = Vec::new(alloc);
    while let [text, rest @ ..] = texts {
        words.push(text.as_str())?;
        texts = rest;
    }
    Ok(words)
}

// The path of a file that is named from the folder of another.
fn path_beside(alloc: Global, other: &str, file: &str) -> Result<String, AllocError>
    ensures { IfOk result (λ path. string_bytes path ≡ path_from other.now file.now) }
{
    let mut path = String::new(alloc);
    if !begins_at_root(file) {
        push_folder(other, &mut path)?;
    }
    path.push_str(file)?;
    Ok(path)
}

fn begins_at_root(path: &str) -> bool
    ensures { result ≡ is_absolute path.now }
{
    matches!(path.as_bytes(), [b'/', ..])
}

// Appends the folder of a path, with its slash, if it has one.
fn push_folder(path: &str, text: &mut String) -> Result<(), AllocError>
    ensures { OnOk result (string_bytes text.new ≡ string_bytes text.old ++ folder_of path.now) }
{
    match folder(path) {
        Some(folder) => {
            text.push_str(folder)?;
            text.push_str("/")
        }
        None => Ok(()),
    }
}

fn folder(path: &str) -> Option<&str>
    ensures { option_copied result ≡ option_map (λ split. split.0) (rsplit_once slash path.now) }
{
    match path.rsplit_once('/') {
        Some((folder, _)) => Some(folder),
        None => None,
    }
}
