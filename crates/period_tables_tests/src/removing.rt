//! Recordings that are removed from the disk.

use recording_names::period_of;
use std::fs;
use std::test::Fail;
use tables_folder::{clear_removed, days_in, remove_period};

const FILE: &str = "recordings/2026-11-25/133500/192.0.2.1-40012-7.ipfix";

const LATER: &str = "recordings/2026-11-25/134000/192.0.2.1-40012-7.ipfix";

const BEGINS: u64 = 1_795_613_700;

#[test]
fn a_period_is_removed_alone(rt: HostRuntime) -> Result<(), Fail> {
    fs::create_dir_all(&rt, "recordings/2026-11-25/133500")?;
    fs::create_dir_all(&rt, "recordings/2026-11-25/134000")?;
    fs::write(&rt, FILE, b"abc")?;
    fs::write(&rt, LATER, b"abc")?;
    assert!(rt; remove_period(&rt, "recordings", period_of(BEGINS, 300)).is_ok());
    assert!(rt; fs::read(&rt, FILE).is_err());
    assert!(rt; fs::read(&rt, LATER).is_ok());
    assert!(rt; remove_period(&rt, "recordings", period_of(BEGINS, 300)).is_err());
    assert!(rt; remove_period(&rt, "recordings", period_of(BEGINS + 300, 300)).is_ok());
    assert!(rt; days_in(&rt, "recordings")?.is_empty());
    Ok(())
}

#[test]
fn what_a_stop_left_is_removed(rt: HostRuntime) -> Result<(), Fail> {
    assert!(rt; clear_removed(&rt, "recordings").is_ok());
    fs::create_dir_all(&rt, "recordings/removed/1795613700")?;
    fs::create_dir_all(&rt, "recordings/removed/notes")?;
    fs::write(&rt, "recordings/removed/1795613700/a.ipfix", b"abc")?;
    fs::write(&rt, "recordings/removed/notes/a.ipfix", b"abc")?;
    assert!(rt; clear_removed(&rt, "recordings").is_ok());
    assert!(rt; fs::read(&rt, "recordings/removed/1795613700/a.ipfix").is_err());
    assert!(rt; fs::read(&rt, "recordings/removed/notes/a.ipfix").is_ok());
    Ok(())
}
