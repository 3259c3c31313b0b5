//! The paths of the files of a period.

ghost use Rattle.std.specs.Prelude.{◌≡◌, map, string_bytes, IfOk};
ghost use Rattle.period_collect.specs.Paths.{AreFilePaths, ArePathsIn, path_of, texts_of};

use recording_names::{Period, period_name};
use std::alloc::{AllocError, Global};

/// The paths of these files of a period, in their order.
pub(crate) fn paths_of(
    alloc: Global,
    recordings: &str,
    period: Period,
    files: &[String],
) -> Result<Vec<String>, AllocError>
    ensures { IfOk result (λ paths. AreFilePaths recordings.now period.begins files.now paths.items) }
{
    let name = period_name(alloc, period)?;
    let paths = paths_in(alloc, recordings, &name, files)?;
    Ok(paths)
}

// Those in the folder of this name.
fn paths_in(
    alloc: Global,
    recordings: &str,
    name: &String,
    files: &[String],
) -> Result<Vec<String>, AllocError>
    ensures { IfOk result (λ paths. ArePathsIn recordings.now name.now files.now paths.items) }
{
    let mut paths = Vec::new(alloc);
    let mut left = files;
    while let Some((file, rest)) = left.split_first() {
        paths.push(path_in(alloc, recordings, name, file)?)?;
        left = rest;
    }
    Ok(paths)
}

fn path_in(
    alloc: Global,
    recordings: &str,
    name: &String,
    file: &String,
) -> Result<String, AllocError>
    ensures { IfOk result (λ path. string_bytes path ≡ path_of recordings.now name.now file.now) }
{
    format!(in alloc; "{recordings}/{name}/{file}")
}

/// The same as words.
pub(crate) fn words_of(alloc: Global, paths: &[String]) -> Result<Vec<&str>, AllocError>
    ensures { IfOk result (λ words. texts_of words.items ≡ map string_bytes paths.now) }
{
    let mut words = Vec::new(alloc);
    for path in paths {
        words.push(path.as_str())?;
    }
    Ok(words)
}
