//! A session's files on a disk in memory, of whose calls each is refused in turn. What has to stand there was
//! worked out by hand.

use super::kept_files::KeptFiles;
use super::refusals::{NO_ENTRY, NO_SPACE, NOT_PERMITTED, Reach, Refusal};
use super::script_disk::Disk;
use super::script_file::lent;
use super::script_tree::NamesLeft;
use super::standing::{Notes, check};
use super::trial::{MANY_CALLS, NEXT_PERIOD, Trial, cut_at_each_call};
use recording_files::{FileReport, NotWritten, PeriodClock};
use recording_folder::{
    Folder, FolderFinisher, SessionFiles, SystemPeriods, SystemPlace, SystemSession, open_folder,
};
use recording_names::Transport;
use std::io;
use std::net::{IpAddr, Ipv4Addr, SocketAddr};
use std::test::*;

/// Messages of 18 octets: a header with this length, and two octets more.
pub const FIRST: &[u8] = b"\x00\x0a\x00\x12\0\0\0\0\0\0\0\0\0\0\0\0a1";

pub const SECOND: &[u8] = b"\x00\x0a\x00\x12\0\0\0\0\0\0\0\0\0\0\0\0a2";

pub const THIRD: &[u8] = b"\x00\x0a\x00\x12\0\0\0\0\0\0\0\0\0\0\0\0b1";

pub const FOURTH: &[u8] = b"\x00\x0a\x00\x12\0\0\0\0\0\0\0\0\0\0\0\0c1";

/// The first two of them.
pub const FIRST_TWO: &[u8] =
    b"\x00\x0a\x00\x12\0\0\0\0\0\0\0\0\0\0\0\0a1\x00\x0a\x00\x12\0\0\0\0\0\0\0\0\0\0\0\0a2";

/// The final names of the session's files. Two are of one period.
pub const FIRST_NAME: &str = "2026-11-25/133500/192.0.2.1-40012-7.ipfix";

pub const NEXT_NAME: &str = "2026-11-25/134000/192.0.2.1-40012-7.ipfix";

const SECOND_OF_NEXT: &str = "2026-11-25/134000/192.0.2.1-40012-7.2.ipfix";

/// The files of a session on a disk in memory, each of which is finished at once.
pub type NotedFiles<'a> = SessionFiles<'a, Disk<'a>, FolderFinisher<'a, Disk<'a>, Notes<'a>>>;

/// The peer of the session.
pub fn peer() -> SocketAddr {
    SocketAddr::new(IpAddr::V4(Ipv4Addr::new(192, 0, 2, 1)), 40012)
}

// Writes three files: one of the first period, and two of the next.
fn write_files<'a>(
    disk: &Disk<'a>,
    files: &mut NotedFiles<'a>,
    periods: &mut SystemPeriods<'a, Disk<'a>>,
    kept: &mut KeptFiles,
) -> Result<(), NotWritten> {
    kept.append(files, FIRST)?;
    kept.append(files, SECOND)?;
    if let Ok(mut tree) = lent(disk.tree) {
        tree.second = NEXT_PERIOD;
    }
    if periods.is_over() {
        kept.turn(files)?;
    }
    kept.append(files, THIRD)?;
    kept.turn(files)?;
    kept.append(files, FOURTH)
}

/// What was acknowledged of a session.
#[derive(Drop)]
struct Recorded {
    kept: KeptFiles,
    /// Whether all of it was, with the end of its last file.
    is_whole: bool,
}

// Records a session to its end or first fault, as a recorder does.
fn record_session<'a>(
    disk: &'a Disk<'a>,
    folder: &'a Folder,
    notes: Notes<'a>,
) -> io::Result<Recorded> {
    let place = SystemPlace::new(disk, folder, 300);
    let SystemSession {
        mut files,
        mut periods,
    } = place.session(disk.alloc, peer(), Transport::Connection, 7, notes)?;
    let mut kept = KeptFiles::new(disk.alloc);
    let written = write_files(disk, &mut files, &mut periods, &mut kept);
    let finished = files.finish(&FileReport::EMPTY).finished;
    Ok(Recorded {
        kept,
        is_whole: written.is_ok() && finished.is_ok(),
    })
}

// All that the session sent has its final names.
fn check_whole(trial: &Trial<'_>) -> Result<(), Fail> {
    trial.check_file(FIRST_NAME, FIRST_TWO)?;
    trial.check_file(NEXT_NAME, THIRD)?;
    trial.check_file(SECOND_OF_NEXT, FOURTH)?;
    trial.check_lines(&[
        ("finished ", FIRST_NAME),
        ("finished ", NEXT_NAME),
        ("finished ", SECOND_OF_NEXT),
    ])
}

// Records a session on a disk that refuses this, and answers whether the first call that it refuses came. What
// was acknowledged stands whole, and has its final name after a start at which nothing is refused.
fn try_session(
    rt: &HostRuntime,
    folder: &Folder,
    refusal: Refusal,
    has_links: bool,
) -> Result<bool, Fail> {
    let trial = Trial::new(rt, folder)?;
    let case = format!(in trial.alloc; "{refusal:?}")?;
    lent(&trial.tree)?.has_links = has_links;
    trial.refuse(Some(refusal))?;
    let Recorded { kept, is_whole } = record_session(&trial.disk(), folder, trial.notes())?;
    let was_reached = trial.has_called(refusal.first)?;
    trial.check(&kept, case.as_str())?;
    check(is_whole || was_reached, case.as_str(), "a session failed")?;
    if is_whole {
        check_whole(&trial)?;
    }
    trial.recover()?;
    trial.check_settled(&kept, b"", case.as_str())?;
    Ok(was_reached)
}

// Refuses each call in turn, until a session ends before.
fn refuse_each(
    rt: &HostRuntime,
    folder: &Folder,
    reach: Reach,
    code: i32,
    has_links: bool,
) -> Result<(), Fail> {
    for first in 0..MANY_CALLS {
        let refusal = Refusal { first, reach, code };
        if !try_session(rt, folder, refusal, has_links)? {
            return Ok(());
        }
    }
    Err(Fail::new("no session ended"))
}

// The same where the power is cut at that call.
fn try_power_cut(
    rt: &HostRuntime,
    folder: &Folder,
    first: u64,
    left: NamesLeft,
) -> Result<bool, Fail> {
    let trial = Trial::new(rt, folder)?;
    let case = format!(in trial.alloc; "power is cut at {first}, {left:?}")?;
    trial.refuse(Some(Refusal {
        first,
        reach: Reach::Each,
        code: NO_SPACE,
    }))?;
    let Recorded { kept, .. } = record_session(&trial.disk(), folder, trial.notes())?;
    let was_reached = trial.has_called(first)?;
    let said = trial.said_files()?;
    trial.check_power_cut(&said, &kept, left, case.as_str())?;
    Ok(was_reached)
}

#[test]
fn a_file_stands_whole_under_one_of_its_names_whatever_call_is_refused(
    rt: HostRuntime,
) -> Result<(), Fail> {
    let folder = open_folder(&rt, rt.alloc(), "recordings")?;
    for code in [NO_SPACE, NO_ENTRY, NOT_PERMITTED] {
        refuse_each(&rt, &folder, Reach::One, code, true)?;
    }
    Ok(())
}

#[test]
fn a_file_stands_whole_wherever_the_run_is_killed(rt: HostRuntime) -> Result<(), Fail> {
    let folder = open_folder(&rt, rt.alloc(), "recordings")?;
    refuse_each(&rt, &folder, Reach::Each, NO_SPACE, true)
}

#[test]
fn what_was_acknowledged_stands_on_a_full_disk(rt: HostRuntime) -> Result<(), Fail> {
    let folder = open_folder(&rt, rt.alloc(), "recordings")?;
    refuse_each(&rt, &folder, Reach::EachForRoom, NO_SPACE, true)
}

#[test]
fn a_file_stands_whole_where_a_disk_has_no_hard_links(rt: HostRuntime) -> Result<(), Fail> {
    let folder = open_folder(&rt, rt.alloc(), "recordings")?;
    for reach in [Reach::One, Reach::Each, Reach::EachForRoom] {
        refuse_each(&rt, &folder, reach, NO_SPACE, false)?;
    }
    Ok(())
}

#[test]
fn a_file_that_was_said_to_be_finished_outlives_a_power_cut(rt: HostRuntime) -> Result<(), Fail> {
    let folder = open_folder(&rt, rt.alloc(), "recordings")?;
    cut_at_each_call(|first, left| try_power_cut(&rt, &folder, first, left))
}
