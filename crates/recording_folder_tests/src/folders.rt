//! The folder of recordings: one that is opened, one that goes under a session, and one of a period that others
//! moved away.

use super::kept_files::KeptFiles;
use super::script_file::lent;
use super::sessions::{FIRST, FIRST_NAME, SECOND, peer};
use super::trial::Trial;
use recording_files::{FileReport, NotWritten};
use recording_folder::{FilesEnd, FolderFault, SystemPlace, open_folder, reopen_folder};
use recording_names::Transport;
use report_writing::Reason;
use std::fs;
use std::io::ErrorKind;
use std::test::*;

#[test]
fn a_folder_is_made_and_is_one_runs_alone(rt: HostRuntime) -> Result<(), Fail> {
    {
        let folder = open_folder(&rt, rt.alloc(), "new/recordings")?;
        assert!(rt; folder.path() == "new/recordings");
        assert!(rt; folder.unfinished() == "new/recordings/unfinished");
        assert!(rt; fs::metadata(&rt, folder.unfinished())?.is_dir());
        let other = open_folder(&rt, rt.alloc(), "new/recordings");
        assert!(rt; matches!(other, Err(FolderFault::InUse)));
    }
    let next = open_folder(&rt, rt.alloc(), "new/recordings");
    assert!(rt; next.is_ok());
    Ok(())
}

#[test]
fn a_folder_that_cannot_be_made_is_a_fault(rt: HostRuntime) -> Result<(), Fail> {
    fs::write(&rt, "file", b"abc")?;
    for (path, kind) in [
        ("", ErrorKind::NotFound),
        ("file", ErrorKind::NotADirectory),
        ("file/recordings", ErrorKind::NotADirectory),
    ] {
        let opened = open_folder(&rt, rt.alloc(), path);
        assert!(rt;
            matches!(opened, Err(FolderFault::NotHad(error)) if error.kind() == kind),
            "{path}"
        );
    }
    Ok(())
}

#[test]
fn a_folder_that_no_run_made_is_not_made(rt: HostRuntime) -> Result<(), Fail> {
    fs::create_dir(&rt, "empty")?;
    for path in ["", "absent", "empty"] {
        let opened = reopen_folder(&rt, rt.alloc(), path);
        assert!(rt;
            matches!(opened, Err(FolderFault::NotHad(error)) if error.kind() == ErrorKind::NotFound),
            "{path}"
        );
    }
    assert!(rt; fs::metadata(&rt, "absent").is_err());
    assert!(rt; fs::metadata(&rt, "empty/.lock").is_err());
    Ok(())
}

#[test]
fn a_folder_that_a_run_made_is_one_runs_alone(rt: HostRuntime) -> Result<(), Fail> {
    let folder = open_folder(&rt, rt.alloc(), "made")?;
    let other = reopen_folder(&rt, rt.alloc(), "made");
    assert!(rt; matches!(other, Err(FolderFault::InUse)));
    drop(folder);
    let other = reopen_folder(&rt, rt.alloc(), "made")?;
    assert!(rt; other.unfinished() == "made/unfinished");
    Ok(())
}

#[test]
fn nothing_is_acknowledged_in_a_folder_that_is_gone(rt: HostRuntime) -> Result<(), Fail> {
    let folder = open_folder(&rt, rt.alloc(), "recordings")?;
    let trial = Trial::new(&rt, &folder)?;
    lent(&trial.tree)?.remove_all(folder.path());
    let disk = trial.disk();
    let place = SystemPlace::new(&disk, &folder, 300);
    let mut session = place.session(trial.alloc, peer(), Transport::Connection, 7, trial.notes())?;
    let mut kept = KeptFiles::new(trial.alloc);
    assert!(rt; kept.append(&mut session.files, FIRST) == Err(NotWritten));
    let end = FilesEnd {
        finished: Ok(()),
        reason: Some(Reason::NoSuchFile),
    };
    assert_eq!(rt; session.files.finish(&FileReport::EMPTY), end);
    trial.check_lines(&[])
}

#[test]
fn a_file_is_not_said_to_be_finished_in_a_folder_that_is_gone(rt: HostRuntime) -> Result<(), Fail> {
    let folder = open_folder(&rt, rt.alloc(), "recordings")?;
    let trial = Trial::new(&rt, &folder)?;
    let disk = trial.disk();
    let place = SystemPlace::new(&disk, &folder, 300);
    let mut session = place.session(trial.alloc, peer(), Transport::Connection, 7, trial.notes())?;
    let mut kept = KeptFiles::new(trial.alloc);
    kept.append(&mut session.files, FIRST)?;
    lent(&trial.tree)?.remove_all(folder.path());
    let end = FilesEnd {
        finished: Err(NotWritten),
        reason: Some(Reason::NoSuchFile),
    };
    assert_eq!(rt; session.files.finish(&FileReport::EMPTY), end);
    trial.check_lines(&[])
}

#[test]
fn a_folder_of_a_period_that_was_moved_away_is_made_again(rt: HostRuntime) -> Result<(), Fail> {
    let folder = open_folder(&rt, rt.alloc(), "recordings")?;
    let trial = Trial::new(&rt, &folder)?;
    let disk = trial.disk();
    let place = SystemPlace::new(&disk, &folder, 300);
    let mut session = place.session(trial.alloc, peer(), Transport::Connection, 7, trial.notes())?;
    let mut kept = KeptFiles::new(trial.alloc);
    kept.append(&mut session.files, FIRST)?;
    kept.turn(&mut session.files)?;
    trial.check_file(FIRST_NAME, FIRST)?;
    let date = trial.path("2026-11-25")?;
    lent(&trial.tree)?.remove_all(date.as_str());
    kept.append(&mut session.files, SECOND)?;
    let end = FilesEnd {
        finished: Ok(()),
        reason: None,
    };
    assert_eq!(rt; session.files.finish(&FileReport::EMPTY), end);
    trial.check_file(FIRST_NAME, SECOND)?;
    trial.check_lines(&[("finished ", FIRST_NAME), ("finished ", FIRST_NAME)])
}
