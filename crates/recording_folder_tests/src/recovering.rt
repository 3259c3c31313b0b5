//! What an earlier run left, on a disk in memory of whose calls each is refused in turn. What has to stand there
//! was worked out by hand.

use super::kept_files::KeptFiles;
use super::refusals::{NO_ENTRY, NO_SPACE, NOT_PERMITTED, Reach, Refusal};
use super::script_file::lent;
use super::script_tree::{Entry, NamesLeft};
use super::sessions::{FIRST, FIRST_TWO, FOURTH, SECOND, THIRD};
use super::trial::{MANY_CALLS, Trial, cut_at_each_call};
use recording_folder::{EarlierPeers, Folder, open_folder, recover};
use std::io::{self, ErrorKind};
use std::test::*;

// A message that another session sent.
const FIFTH: &[u8] = b"\x00\x0a\x00\x12\0\0\0\0\0\0\0\0\0\0\0\0d1";

// The third message, and half of the second.
const CUT_OFF: &[u8] = b"\x00\x0a\x00\x12\0\0\0\0\0\0\0\0\0\0\0\0b1\x00\x0a\x00\x12\0\0\0\0\0";

// The names of unfinished files of the period that begins at 2026-11-25 13:35:00, and their final names.
const WHOLE: &str = "unfinished/1795613700-192.0.2.1-40012-1";

const WHOLE_FINAL: &str = "2026-11-25/133500/192.0.2.1-40012-1.ipfix";

const CUT: &str = "unfinished/1795613700-192.0.2.1-40012-2";

const CUT_FINAL: &str = "2026-11-25/133500/192.0.2.1-40012-2.ipfix";

const NO_MESSAGE: &str = "unfinished/1795613700-192.0.2.1-40012-3";

const EMPTY: &str = "unfinished/1795613700-192.0.2.1-40012-4";

const FOLDER: &str = "unfinished/1795613700-192.0.2.1-40012-5";

const OTHER: &str = "unfinished/notes";

const TWO_NAMES: &str = "unfinished/1795613700-192.0.2.1-40012-6";

const TWO_NAMES_FINAL: &str = "2026-11-25/133500/192.0.2.1-40012-6.ipfix";

const TAKEN: &str = "unfinished/1795613700-192.0.2.1-40012-7";

const TAKEN_FINAL: &str = "2026-11-25/133500/192.0.2.1-40012-7.ipfix";

const TAKEN_NEXT: &str = "2026-11-25/133500/192.0.2.1-40012-7.2.ipfix";

const UNREADABLE: &str = "unfinished/1795613700-192.0.2.1-40012-8";

// What stays among the unfinished files, in the order in which it was made.
const STAYS: &[u8] = b"1795613700-192.0.2.1-40012-5\0notes\01795613700-192.0.2.1-40012-8\0";

// Makes a file that an earlier run brought to the disk.
fn leave(trial: &Trial<'_>, name: &str, octets: &[u8]) -> io::Result<Entry> {
    let path = trial.path(name)?;
    let mut tree = lent(&trial.tree)?;
    let number = tree.make_file(path.as_str(), octets)?;
    Ok(Entry::File(number))
}

// Gives a file or a folder another name.
fn name_too(trial: &Trial<'_>, name: &str, entry: Entry) -> io::Result<()> {
    let path = trial.path(name)?;
    lent(&trial.tree)?.add(path.as_str(), entry)
}

// Leaves a file of each kind, and answers those that have whole messages.
fn leave_each(trial: &Trial<'_>) -> io::Result<KeptFiles> {
    name_too(trial, "2026-11-25", Entry::Folder)?;
    name_too(trial, "2026-11-25/133500", Entry::Folder)?;
    leave(trial, WHOLE, FIRST_TWO)?;
    leave(trial, CUT, CUT_OFF)?;
    leave(trial, NO_MESSAGE, &SECOND[..9])?;
    leave(trial, EMPTY, b"")?;
    name_too(trial, FOLDER, Entry::Folder)?;
    leave(trial, OTHER, b"abc")?;
    let two_names = leave(trial, TWO_NAMES, FOURTH)?;
    name_too(trial, TWO_NAMES_FINAL, two_names)?;
    leave(trial, TAKEN, FIFTH)?;
    leave(trial, TAKEN_FINAL, SECOND)?;
    lent(&trial.tree)?.sync()?;
    let mut kept = KeptFiles::new(trial.alloc);
    for octets in [FIRST_TWO, THIRD, FOURTH, FIFTH, SECOND] {
        kept.keep_file(octets)?;
    }
    Ok(kept)
}

// Leaves a file that can't be opened.
fn leave_unreadable(trial: &Trial<'_>) -> io::Result<()> {
    let entry = leave(trial, UNREADABLE, FIRST)?;
    let mut tree = lent(&trial.tree)?;
    if let Entry::File(number) = entry
        && let Some(node) = tree.nodes.get_mut(number)
    {
        node.is_readable = false;
    }
    tree.sync()
}

// Looks after what was left on a disk that refuses this, and answers whether the first call that it refuses
// came. Whole messages stay, and have their final names after a start at which nothing is refused.
fn try_recovery(rt: &HostRuntime, folder: &Folder, refusal: Refusal) -> Result<bool, Fail> {
    let trial = Trial::new(rt, folder)?;
    let case = format!(in trial.alloc; "{refusal:?}")?;
    let kept = leave_each(&trial)?;
    trial.refuse(Some(refusal))?;
    let mut earlier = EarlierPeers::new(trial.alloc);
    let _ = recover(&trial.disk(), folder, &mut trial.notes(), &mut earlier);
    let was_reached = trial.has_called(refusal.first)?;
    trial.check(&kept, case.as_str())?;
    trial.recover()?;
    trial.check_settled(&kept, &STAYS[..35], case.as_str())?;
    Ok(was_reached)
}

// The same where the power is cut at that call.
fn try_power_cut(
    rt: &HostRuntime,
    folder: &Folder,
    first: u64,
    left: NamesLeft,
) -> Result<bool, Fail> {
    let trial = Trial::new(rt, folder)?;
    let case = format!(in trial.alloc; "power is cut at {first}, {left:?}")?;
    let kept = leave_each(&trial)?;
    trial.refuse(Some(Refusal {
        first,
        reach: Reach::Each,
        code: NO_SPACE,
    }))?;
    let mut earlier = EarlierPeers::new(trial.alloc);
    let _ = recover(&trial.disk(), folder, &mut trial.notes(), &mut earlier);
    let was_reached = trial.has_called(first)?;
    trial.check_power_cut(&kept, &kept, left, case.as_str())?;
    Ok(was_reached)
}

// Refuses each call in turn, until all is looked after before.
fn refuse_each(rt: &HostRuntime, folder: &Folder, reach: Reach, code: i32) -> Result<(), Fail> {
    for first in 0..MANY_CALLS {
        let refusal = Refusal { first, reach, code };
        if !try_recovery(rt, folder, refusal)? {
            return Ok(());
        }
    }
    Err(Fail::new("no recovery ended"))
}

#[test]
fn each_file_that_an_earlier_run_left_is_settled_and_told(rt: HostRuntime) -> Result<(), Fail> {
    let folder = open_folder(&rt, rt.alloc(), "recordings")?;
    let trial = Trial::new(&rt, &folder)?;
    let kept = leave_each(&trial)?;
    leave_unreadable(&trial)?;
    assert_eq!(rt; trial.recover()?, 2);
    trial.check_lines(&[
        ("Whole 0 0 0 ", WHOLE_FINAL),
        ("CutOff(9) 0 0 0 ", CUT_FINAL),
        ("Removed(9) ", NO_MESSAGE),
        ("Stayed ", FOLDER),
        ("Whole 0 0 0 ", TWO_NAMES_FINAL),
        ("Whole 0 0 0 ", TAKEN_NEXT),
        ("Stayed ", UNREADABLE),
    ])?;
    trial.check_file(WHOLE_FINAL, FIRST_TWO)?;
    trial.check_file(CUT_FINAL, THIRD)?;
    trial.check_file(TWO_NAMES_FINAL, FOURTH)?;
    trial.check_file(TAKEN_FINAL, SECOND)?;
    trial.check_file(TAKEN_NEXT, FIFTH)?;
    trial.check_file(UNREADABLE, FIRST)?;
    trial.check_settled(&kept, STAYS, "undisturbed")
}

#[test]
fn whole_messages_of_an_earlier_run_stay_whatever_call_is_refused(
    rt: HostRuntime,
) -> Result<(), Fail> {
    let folder = open_folder(&rt, rt.alloc(), "recordings")?;
    for code in [NO_SPACE, NO_ENTRY, NOT_PERMITTED] {
        refuse_each(&rt, &folder, Reach::One, code)?;
    }
    Ok(())
}

#[test]
fn whole_messages_of_an_earlier_run_stay_wherever_the_next_is_killed(
    rt: HostRuntime,
) -> Result<(), Fail> {
    let folder = open_folder(&rt, rt.alloc(), "recordings")?;
    for reach in [Reach::Each, Reach::EachForRoom] {
        refuse_each(&rt, &folder, reach, NO_SPACE)?;
    }
    Ok(())
}

#[test]
fn whole_messages_of_an_earlier_run_outlive_a_power_cut(rt: HostRuntime) -> Result<(), Fail> {
    let folder = open_folder(&rt, rt.alloc(), "recordings")?;
    cut_at_each_call(|first, left| try_power_cut(&rt, &folder, first, left))
}

#[test]
fn a_folder_that_is_gone_is_not_recovered(rt: HostRuntime) -> Result<(), Fail> {
    let folder = open_folder(&rt, rt.alloc(), "recordings")?;
    let trial = Trial::new(&rt, &folder)?;
    lent(&trial.tree)?.remove_all(folder.path());
    let recovered = trial.recover();
    assert!(rt; matches!(recovered, Err(error) if error.kind() == ErrorKind::NotFound));
    trial.check_lines(&[])
}
