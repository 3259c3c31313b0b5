//! Removing recordings on the disk.

use crate::recordings_folder::list_names;
use recording_names::{Period, period_name};
use report_writing::Reason;
use std::fs::{self, OpenFile, OpenOptions};
use std::io::{self, ErrorKind};

/// The folder of recordings that are being removed, in the folder of recordings.
const REMOVED: &str = "removed";

/// Removes the recordings of a period. First its folder is renamed, so that it is always whole or gone; what a run that stops
/// leaves under the other name is for [`clear_removed`].
pub fn remove_period(rt: &HostRuntime, folder: &str, period: Period) -> Result<(), Reason> {
    match rename_and_remove(rt, folder, period) {
        Ok(()) => Ok(()),
        Err(error) => Err(Reason::of(&error)),
    }
}

fn rename_and_remove(rt: &HostRuntime, folder: &str, period: Period) -> io::Result<()> {
    let name = period_name(rt.alloc(), period)?;
    let path = format!(in rt.alloc(); "{folder}/{name}")?;
    let removed = format!(in rt.alloc(); "{folder}/{REMOVED}")?;
    let renamed = format!(in rt.alloc(); "{removed}/{}", period.begins)?;
    fs::create_dir_all(rt, removed.as_str())?;
    fs::rename(rt, path.as_str(), renamed.as_str())?;
    sync_folder(rt, removed.as_str())?;
    if let Some((day, _)) = path.rsplit_once('/') {
        sync_folder(rt, day)?;
        // (one that has other periods stays)
        let _ = fs::remove_dir(rt, day);
    }
    fs::remove_dir_all(rt, renamed.as_str())
}

/// Removes what runs that stopped left of recordings that they were removing.
pub fn clear_removed(rt: &HostRuntime, folder: &str) -> Result<(), Reason> {
    match remove_renamed(rt, folder) {
        Ok(()) => Ok(()),
        Err(error) => Err(Reason::of(&error)),
    }
}

fn remove_renamed(rt: &HostRuntime, folder: &str) -> io::Result<()> {
    let removed = format!(in rt.alloc(); "{folder}/{REMOVED}")?;
    let names = match list_names(rt, removed.as_str()) {
        Ok(names) => names,
        Err(error) if error.kind() == ErrorKind::NotFound => return Ok(()),
        Err(error) => return Err(error),
    };
    for name in &names {
        // (any other name is nobody's here)
        if name.as_bytes().iter().all(|octet| octet.is_ascii_digit()) {
            let path = format!(in rt.alloc(); "{removed}/{}", name.as_str())?;
            fs::remove_dir_all(rt, path.as_str())?;
        }
    }
    Ok(())
}

/// Brings the names in a folder to the disk.
pub(crate) fn sync_folder(rt: &HostRuntime, path: &str) -> io::Result<()> {
    let folder = OpenOptions::new().read(true).open(rt, path)?;
    folder.sync_all()
}
