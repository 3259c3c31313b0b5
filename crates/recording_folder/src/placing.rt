//! Giving a file its final name.

ghost use Rattle.std.specs.Prelude.{◌≡◌, IfOk};
ghost use Rattle.std.specs.String.{string_bytes};
ghost use Rattle.recording_folder.specs.Paths.{IsFinalPath, IsPathIn, finished_path};

use crate::folder::{Folder, path_in};
use recording_names::{Period, period_name};
use std::alloc::{AllocError, Global};
use std::fs::{self, Files, OpenFile, OpenOptions};
use std::io::{self, ErrorKind};
use std::os::unix::fs::MetadataExt;

/// Moves a file that isn't finished to its period's folder, under the name of its session, and answers its
/// path. What stands there already is never replaced: the file gets the next name that is free. Wherever
/// this is cut off the file stands whole under one of its names, or under both as one file; and when it
/// is done again it goes on from there. An `Err` leaves the file under one of its names, the first if it
/// has got no other.
pub(crate) fn place_file<R: Files>(
    rt: &R,
    alloc: Global,
    folder: &Folder,
    unfinished: &str,
    period: Period,
    session: &str,
) -> io::Result<String>
    ensures { IfOk result (λ path.
        IsFinalPath folder.now period session.now (string_bytes path)) }
{
    let name = period_name(alloc, period)?;
    let period_path = path_in(alloc, folder.path(), name.as_str())?;
    fs::create_dir_all(rt, period_path.as_str())?;
    let path = give_free_name(rt, alloc, unfinished, period_path.as_str(), session)?;
    sync_down_to(rt, folder.path(), period_path.as_str())?;
    remove_first_name(rt, unfinished)?;
    Ok(path)
}

// Gives a file its final name, the first that is free, and answers its path.
fn give_free_name<R: Files>(
    rt: &R,
    alloc: Global,
    unfinished: &str,
    folder: &str,
    session: &str,
) -> io::Result<String>
    ensures { IfOk result (λ path. IsPathIn folder.now session.now (string_bytes path)) }
{
    for number in 1..u64::MAX {
        let path = final_path(alloc, folder, session, number)?;
        match give_name(rt, unfinished, path.as_str()) {
            Ok(()) => return Ok(path),
            Err(error) if error.kind() == ErrorKind::AlreadyExists => {
                if is_same_file(rt, unfinished, path.as_str())? {
                    return Ok(path);
                }
            }
            Err(error) => return Err(error),
        }
    }
    Err(io::Error::from(ErrorKind::AlreadyExists))
}

// Gives a file a name that is free: a second one, or in place of the first on a file system where files
// have one name alone.
fn give_name<R: Files>(rt: &R, unfinished: &str, path: &str) -> io::Result<()> {
    match fs::hard_link(rt, unfinished, path) {
        Err(error) if may_lack_links(error.kind()) => move_to_free_name(rt, unfinished, path),
        given => given,
    }
}

// Whether a link may have failed so since the file system has none.
fn may_lack_links(kind: ErrorKind) -> bool {
    match kind {
        ErrorKind::PermissionDenied | ErrorKind::Unsupported => true,
        _ => false,
    }
}

// Moves a file to a name that is free. An empty file takes the name first, and only that one is replaced.
fn move_to_free_name<R: Files>(rt: &R, unfinished: &str, path: &str) -> io::Result<()> {
    OpenOptions::new()
        .write(true)
        .create_new(true)
        .open(rt, path)?;
    let moved = fs::rename(rt, unfinished, path);
    if moved.is_err() {
        let _ = fs::remove_file(rt, path);
    }
    moved
}

// Takes its first name from a file that has another, if it has not lost it already.
fn remove_first_name<R: Files>(rt: &R, unfinished: &str) -> io::Result<()> {
    match fs::remove_file(rt, unfinished) {
        Err(error) if error.kind() == ErrorKind::NotFound => Ok(()),
        removed => removed,
    }
}

// The path of a session's file; where it was taken before, that of the next number.
fn final_path(alloc: Global, folder: &str, session: &str, number: u64) -> Result<String, AllocError>
    ensures { IfOk result (λ path.
        string_bytes path ≡ finished_path folder.now session.now number) }
{
    if number == 1 {
        format!(in alloc; "{folder}/{session}.ipfix")
    } else {
        format!(in alloc; "{folder}/{session}.{number}.ipfix")
    }
}

// Whether two paths are names of one file.
fn is_same_file<R: Files>(rt: &R, path: &str, other: &str) -> io::Result<bool> {
    let one = fs::symlink_metadata(rt, path)?;
    let two = fs::symlink_metadata(rt, other)?;
    Ok(one.dev() == two.dev() && one.ino() == two.ino())
}

// Brings the names on the way from the folder to a period's folder, and those in it, to the disk. (For each
// file: since the one before, others may have moved the period's folder away, and a thread made it again.)
fn sync_down_to<R: Files>(rt: &R, folder: &str, period_path: &str) -> io::Result<()> {
    sync_folder(rt, period_path)?;
    if let Some((date_path, _)) = period_path.rsplit_once('/') {
        sync_folder(rt, date_path)?;
    }
    sync_folder(rt, folder)
}

// Brings the names in a folder to the disk.
fn sync_folder<R: Files>(rt: &R, path: &str) -> io::Result<()> {
    let folder = OpenOptions::new().read(true).open(rt, path)?;
    folder.sync_all()
}
