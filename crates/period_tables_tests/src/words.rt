//! Names of plans, texts that are no receipts, and the worst end.

use period_tables::{status_of_reason, tell_removal, tell_unlisted, worse_of};
use report_writing::{Reason, Status};
use std::test::Fail;
use tables_folder::{files_in_receipt, plan_name};

#[test]
fn plans_are_named_by_their_files(rt: HostRuntime) {
    assert!(rt; matches!(plan_name("plans/source.toml"), Some(name) if name == "source"));
    assert!(rt; matches!(plan_name("source"), Some(name) if name == "source"));
    assert!(rt; plan_name("plans/.toml").is_none());
}

#[test]
fn a_text_that_is_no_receipt_names_no_files(rt: HostRuntime) {
    assert!(rt;
        matches!(
            files_in_receipt(rt.alloc(), "{}", ""),
            Err(Reason::NotValid)
        )
    );
}

#[test]
fn the_worst_end_counts(rt: HostRuntime) {
    let ended = worse_of(Status::Well, status_of_reason(Reason::NoSuchFile));
    assert!(rt; worse_of(ended, Status::SessionFault) == Status::NotOpened);
}

#[test]
fn a_folder_that_cannot_be_listed_has_a_line(rt: HostRuntime) -> Result<(), Fail> {
    let mut err = Vec::new(rt.alloc());
    tell_unlisted("recordings", Reason::NoSuchFile, false, &mut err);
    tell_unlisted("recordings", Reason::NoSuchFile, true, &mut err);
    assert_eq!(rt;
        err.as_slice(),
        b"collectd: folder: recordings: no such file\n".as_slice()
    );
    Ok(())
}

#[test]
fn a_removal_has_a_line(rt: HostRuntime) -> Result<(), Fail> {
    let mut err = Vec::new(rt.alloc());
    let well = tell_removal("2026-11-25/133500", Ok(()), &mut err);
    assert!(rt; well == Status::Well);
    let left = tell_removal("2026-11-25/134000", Err(Reason::NoSuchFile), &mut err);
    assert!(rt; left == Status::SessionFault);
    let want = b"collectd: tables: 2026-11-25/133500: removed
collectd: tables: 2026-11-25/134000: not removed: no such file
";
    assert_eq!(rt; err.as_slice(), want.as_slice());
    Ok(())
}
