//! Reading back what finished files of an earlier run left.

use crate::earlier_peers::EarlierPeers;
use crate::file_contents::read_contents;
use crate::folder::{Folder, path_in};
use crate::peer_files::{NamedFile, is_of_datagrams};
use crate::period_folders::period_at;
use recording_names::{FinishedName, Period, period_name, read_finished_name};
use std::alloc::Global;
use std::fs::{self, Files, OpenOptions};
use std::io;

/// Notes what the last finished file of each peer's datagrams left whose period begins at `since` (in seconds since
/// 1970) or later, unless a file of the peer that wasn't finished was noted. What can't be read is passed over.
pub fn read_back<R: Files + Alloc<A = Global> + Clone + Drop>(
    rt: &R,
    folder: &Folder,
    since: u64,
    earlier: &mut EarlierPeers,
) -> io::Result<()> {
    let mut periods = Vec::new(rt.alloc());
    for day in fs::read_dir(rt, folder.path())? {
        let day = day?;
        let path = path_in(rt.alloc(), folder.path(), day.file_name())?;
        let _ = push_periods(rt, path.as_str(), day.file_name(), since, &mut periods);
    }
    periods.sort_unstable_by_key(|period| u64::MAX - period.begins);
    for period in &periods {
        let name = period_name(rt.alloc(), *period)?;
        let path = path_in(rt.alloc(), folder.path(), name.as_str())?;
        let _ = read_period(rt, path.as_str(), *period, earlier);
    }
    Ok(())
}

// Appends the periods of a day's folder that begin then or later.
fn push_periods<R: Files + Alloc<A = Global> + Clone + Drop>(
    rt: &R,
    path: &str,
    day: &str,
    since: u64,
    periods: &mut Vec<Period>,
) -> io::Result<()> {
    for time in fs::read_dir(rt, path)? {
        let time = time?;
        if let Some(period) = period_at(rt.alloc(), day, time.file_name())? {
            if since <= period.begins {
                periods.push(period)?;
            }
        }
    }
    Ok(())
}

// Notes what the files of a period left.
fn read_period<R: Files + Alloc<A = Global> + Clone + Drop>(
    rt: &R,
    path: &str,
    period: Period,
    earlier: &mut EarlierPeers,
) -> io::Result<()> {
    for entry in fs::read_dir(rt, path)? {
        let entry = entry?;
        if let Some(name) = read_finished_name(entry.file_name()) {
            let path = path_in(rt.alloc(), path, entry.file_name())?;
            let _ = read_finished(rt, path.as_str(), period, &name, earlier);
        }
    }
    Ok(())
}

// Notes what a file left, if it is of datagrams, and later than what is noted of its peer.
fn read_finished<R: Files + Alloc<A = Global>>(
    rt: &R,
    path: &str,
    period: Period,
    name: &FinishedName<'_>,
    earlier: &mut EarlierPeers,
) -> io::Result<()> {
    let file = NamedFile {
        period,
        session: name.session,
        copy: Some(name.copy),
    };
    if !is_of_datagrams(name.session.transport) || !earlier.is_later(rt.alloc(), &file)? {
        return Ok(());
    }
    let mut reader = OpenOptions::new().read(true).open(rt, path)?;
    let contents = read_contents(rt.alloc(), &mut reader)?;
    earlier.note(rt.alloc(), &file, &contents.session)?;
    Ok(())
}
