//! The folder of recordings of a run.

use recording_connections::{FolderFault, open_recordings};
use std::alloc::Global;
use std::fs;
use std::test::*;

// A folder is made, and is one run's alone. What stands in it under the name of an unfinished file is
// finished: of three octets nothing stays.
#[test]
fn one_run_at_a_time(rt: HostRuntime) -> Result<(), Fail> {
    let alloc: Global = rt.alloc();
    fs::create_dir_all(&rt, "recordings/unfinished")?;
    fs::write(
        &rt,
        "recordings/unfinished/1795613700-192.0.2.1-40012-7",
        b"abc",
    )?;
    let mut err = Vec::new(alloc);
    let folder = open_recordings(&rt, alloc, "recordings", 0, &mut err);
    assert!(rt; folder.is_ok());
    assert!(rt; err.ends_with(b": removed 3 octets, no whole message\n"));
    let other = open_recordings(&rt, alloc, "recordings", 0, &mut err);
    assert!(rt; matches!(other, Err(FolderFault::InUse)));
    Ok(())
}
