//! Where the files of a session end, and what they give: each by itself, and all as one text.

use super::running::{NOTHING, Sums, add_file, run, sums_of, together};
use super::session::{SESSION_LENGTH, session};
use std::alloc::Global;
use std::test::*;

// What the sequence numbers say (RFC 7011, section 3.1): 7 records of domain 1 are lost before its second
// message, and 6 before its last; after the unknown set of domain 2 nothing can be said, and its last
// message steps backward.
const WHOLE: Sums = Sums {
    records: 12,
    domains: [[8, 13, 0], [3, 0, 1], [1, 0, 0]],
    fault: None,
};

#[test]
fn no_rotation(rt: HostRuntime) -> Result<(), Fail> {
    let alloc: Global = rt.alloc();
    let text = session(alloc)?;
    assert_eq!(rt; text.len(), SESSION_LENGTH);
    let (files, recorded) = run(alloc, &text, 65536, false, 1000)?;
    assert_eq!(rt; recorded.ended, Ok(()));
    assert_eq!(rt; files.finished.len(), 0);
    assert_eq!(rt; files.unfinished.as_slice(), text.as_slice());
    assert_eq!(rt; sums_of(alloc, &files), WHOLE);
    Ok(())
}

// The period is over after each read. The messages end after 71, 121, 162, 184, 217, 249, 285, 317 and
// 351 octets, so pieces of 40 octets end 7 times after one or two messages, and the others after none.
#[test]
fn rotation_at_each_read(rt: HostRuntime) -> Result<(), Fail> {
    let alloc: Global = rt.alloc();
    let text = session(alloc)?;
    for (piece, finished) in [(65536, 1), (40, 7), (1, 9)] {
        let (files, recorded) = run(alloc, &text, piece, true, 10_000)?;
        assert_eq!(rt; recorded.ended, Ok(()));
        assert_eq!(rt; files.finished.len(), finished);
        assert_eq!(rt; files.unfinished.len(), 0);
        assert_eq!(rt; sums_of(alloc, &files), WHOLE);
        let mut as_one = NOTHING;
        add_file(alloc, &together(alloc, &files)?, &mut as_one);
        assert_eq!(rt; as_one, WHOLE);
    }
    Ok(())
}

// How many records stand in each file.
#[test]
fn records_by_file(rt: HostRuntime) -> Result<(), Fail> {
    let alloc: Global = rt.alloc();
    let text = session(alloc)?;
    let (files, _) = run(alloc, &text, 40, true, 10_000)?;
    for (file, records) in files.finished.iter().zip([3, 1, 2, 2, 1, 2, 1]) {
        let mut sums = NOTHING;
        add_file(alloc, file.as_slice(), &mut sums);
        assert_eq!(rt; sums.records, records);
        assert_eq!(rt; sums.fault, None);
    }
    Ok(())
}
