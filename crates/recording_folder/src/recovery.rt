//! What an earlier run left.

ghost use Rattle.std.specs.Prelude.{◌≡◌, if◌then◌else◌, IfOk, OnErr};
ghost use Rattle.ipfix_session.specs.Sources.{one_more};
ghost use Rattle.std.specs.String.{string_bytes};
ghost use Rattle.recording_folder.specs.Paths.{IsUnfinishedPath};
ghost use Rattle.recording_folder.specs.Recoveries.{AllAreLookedAfter, EndsAfter, IsLookedAfter, IsSettled, IsSettledAs, SomeIsLookedAfter};

use crate::earlier_peers::EarlierPeers;
use crate::file_contents::{FileContents, read_contents};
use crate::folder::{Folder, path_in};
use crate::peer_files::{NamedFile, is_of_datagrams};
use crate::placing::place_file;
use recording_files::{FileEnd, FileReport, FinishedFiles, Recovered};
use recording_names::{UnfinishedName, read_session_name, read_unfinished_name};
use recording_resumption::EarlierSession;
use std::alloc::Global;
use std::fs::{self, Files, OpenFile, OpenOptions};
use std::io::{self, ErrorKind};

/// Gives each file that an earlier run left its final name, in its period's folder. A message that was cut
/// off at its end is cut off the file, if that can be done; its whole messages stay. A file that has none
/// goes away, without a word if it is empty. What has no name of such a file is left alone. Each file is read
/// once. Answers how many files stay without a final name, up to `u64::MAX`. An `Err` is a folder that can't be read. What the
/// last file of each peer's datagrams left is noted among `earlier`, if there is memory for it.
pub fn recover<R: Files + Alloc<A = Global> + Clone + Drop, L: FinishedFiles>(
    rt: &R,
    folder: &Folder,
    log: &mut L,
    earlier: &mut EarlierPeers,
) -> io::Result<u64>
    ensures { AllAreLookedAfter R.File.remaining L.tells folder.now log.old log.new result }
{
    let mut stayed = 0u64;
    for entry in fs::read_dir(rt, folder.unfinished())? {
        let entry = entry?;
        let stays = recover_entry(rt, folder, entry.file_name(), log, earlier)?;
        stayed = one_more_if(stays, stayed);
    }
    Ok(stayed)
}

// Counts up to `u64::MAX`.
fn one_more_if(is_one: bool, count: u64) -> u64
    ensures { result ≡ (if is_one then one_more count else count) }
{
    if is_one {
        count.saturating_add(1)
    } else {
        count
    }
}

// Does that with what has this name, if it is the name of an unfinished file, and answers whether it is one that stays.
fn recover_entry<R: Files + Alloc<A = Global>, L: FinishedFiles>(
    rt: &R,
    folder: &Folder,
    name: &str,
    log: &mut L,
    earlier: &mut EarlierPeers,
) -> io::Result<bool>
    ensures ok { IfOk result (SomeIsLookedAfter R.File.remaining L.tells folder.now log.old log.new) }
    ensures err { OnErr result (log.new ≡ log.old) }
{
    let Some(told) = read_unfinished_name(name) else {
        return Ok(false);
    };
    let path = path_in(rt.alloc(), folder.unfinished(), name)?;
    Ok(recover_file(rt, folder, path.as_str(), &told, log, earlier))
}

// Gives a file its final name, tells what became of it, and answers whether it stays among those that aren't finished.
fn recover_file<R: Files + Alloc<A = Global>, L: FinishedFiles>(
    rt: &R,
    folder: &Folder,
    path: &str,
    name: &UnfinishedName<'_>,
    log: &mut L,
    earlier: &mut EarlierPeers,
) -> bool
    requires { IsUnfinishedPath folder.now name.now.period name.now.session.now path.now }
    ensures { IsLookedAfter R.File.remaining L.tells folder.now name.now log.old result log.new }
{
    // (a line that can't be written stops nothing)
    match settle(rt, folder, path, name) {
        Ok(
            Settled::Placed {
                path,
                report,
                end,
                session,
            },
        ) => {
            note_earlier(rt.alloc(), name, &session, earlier);
            let _ = log.recovered(path.as_str(), Recovered::Placed { report, end });
            false
        }
        Ok(Settled::Removed(0)) => false,
        Ok(Settled::Removed(octets)) => {
            let _ = log.recovered(path, Recovered::Removed(octets));
            false
        }
        Err(_) => {
            let _ = log.recovered(path, Recovered::Stayed);
            true
        }
    }
}

// Notes what a file left, if it is one of datagrams.
fn note_earlier(
    alloc: Global,
    name: &UnfinishedName<'_>,
    session: &EarlierSession,
    earlier: &mut EarlierPeers,
) {
    let Some(told) = read_session_name(name.session) else {
        return;
    };
    if !is_of_datagrams(told.transport) {
        return;
    }
    let file = NamedFile {
        period: name.period,
        session: told,
        copy: None,
    };
    // (without memory the peer's datagrams are read as those of a new one)
    let _ = earlier.note(alloc, &file, session);
}

/// What was done with a file.
#[derive(Drop)]
enum Settled {
    /// It has this path now.
    Placed {
        path: String,
        report: FileReport,
        end: FileEnd,
        session: EarlierSession,
    },
    /// It is gone, with so many octets.
    Removed(u64),
}

// Reads a file, cuts off what is no whole message, and moves it; one without a message goes away. What is no
// regular file is not opened.
fn settle<R: Files + Alloc<A = Global>>(
    rt: &R,
    folder: &Folder,
    path: &str,
    name: &UnfinishedName<'_>,
) -> io::Result<Settled>
    ensures { IfOk result (IsSettled R.File.remaining folder.now name.now) }
{
    if !fs::symlink_metadata(rt, path)?.is_file() {
        return Err(io::Error::from(ErrorKind::InvalidInput));
    }
    let mut file = OpenOptions::new().read(true).write(true).open(rt, path)?;
    let contents = read_contents(rt.alloc(), &mut file)?;
    let more = file.metadata()?.len().saturating_sub(contents.whole);
    settle_read(rt, folder, path, name, &file, contents, more)
}

// Does the same with a file that has these contents, and so many octets after its whole messages.
fn settle_read<R: Files + Alloc<A = Global>>(
    rt: &R,
    folder: &Folder,
    path: &str,
    name: &UnfinishedName<'_>,
    file: &R::File,
    contents: FileContents,
    more: u64,
) -> io::Result<Settled>
    ensures { IfOk result (IsSettledAs folder.now name.now contents more) }
{
    let FileContents {
        whole,
        report,
        session,
    } = contents;
    if whole == 0 {
        fs::remove_file(rt, path)?;
        return Ok(Settled::Removed(more));
    }
    let end = cut_off(file, whole, more);
    file.sync_all()?;
    let path = place_file(rt, rt.alloc(), folder, path, name.period, name.session)?;
    Ok(Settled::Placed {
        path,
        report,
        end,
        session,
    })
}

// Cuts the octets after its whole messages off a file, if that can be done.
fn cut_off<F: OpenFile>(file: &F, whole: u64, more: u64) -> FileEnd
    ensures { EndsAfter more result }
{
    if more == 0 {
        return FileEnd::Whole;
    }
    match file.set_len(whole) {
        Ok(()) => FileEnd::CutOff(more),
        Err(_) => FileEnd::Truncated(more),
    }
}
