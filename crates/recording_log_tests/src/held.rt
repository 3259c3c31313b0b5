//! What is held of lines of NotWritten, by the text of the issue: one line a second for all sessions, and in it how many came.

use recording_log::HeldLines;
use std::alloc::Global;
use std::process::Abort;
use std::test::*;

const FIRST: &[u8] = b"collectd: session 192.0.2.1:4739: fault 19 NotWritten\n";

const SECOND: &[u8] = b"collectd: session 192.0.2.2:4739: fault 19 NotWritten: no space is left\n";

const THIRD: &[u8] = b"collectd: session 192.0.2.3:4739: fault 19 NotWritten: no permission\n";

const THREE: &[u8] =
    b"collectd: session 192.0.2.3:4739: fault 19 NotWritten: no permission (3 times)\n";

const ANOTHER: &[u8] = b"collectd: session 192.0.2.1:4739: fault 12 OutOfMemory\n";

const OF_A_FILE: &[u8] =
    b"collectd: a: fault 19 NotWritten: b.ipfix: messages 1, records 1, lost 0, backward 0\n";

// What is written when a second is over.
fn over(alloc: Global, lines: &mut HeldLines) -> Result<Vec<u8>, Fail> {
    let mut told = HeldLines::new(alloc)?;
    lines.begin_second(&mut told);
    let mut text = Vec::new(alloc);
    told.write(&mut text)?;
    Ok(text)
}

// Takes lines, and asserts how many of them are held.
fn assert_held(rt: &impl Abort, lines: &mut HeldLines, all: &[&[u8]], count: usize) {
    let mut held: usize = 0;
    for line in all {
        if lines.hold(*line) {
            held = held.saturating_add(1);
        }
    }
    assert_eq!(rt; held, count);
}

#[test]
fn the_first_is_told_at_once(rt: HostRuntime) -> Result<(), Fail> {
    let alloc: Global = rt.alloc();
    let mut lines = HeldLines::new(alloc)?;
    assert_held(&rt, &mut lines, &[ANOTHER, FIRST, ANOTHER], 0);
    assert!(rt; over(alloc, &mut lines)?.is_empty());
    assert_held(&rt, &mut lines, &[FIRST], 0);
    Ok(())
}

#[test]
fn others_are_told_when_the_second_is_over(rt: HostRuntime) -> Result<(), Fail> {
    let alloc: Global = rt.alloc();
    let mut lines = HeldLines::new(alloc)?;
    assert_held(
        &rt,
        &mut lines,
        &[FIRST, OF_A_FILE, SECOND, ANOTHER, OF_A_FILE],
        1,
    );
    assert_eq!(rt; over(alloc, &mut lines)?.as_slice(), SECOND);
    assert_held(&rt, &mut lines, &[FIRST, SECOND, THIRD], 3);
    assert_eq!(rt; over(alloc, &mut lines)?.as_slice(), THREE);
    assert!(rt; over(alloc, &mut lines)?.is_empty());
    assert_held(&rt, &mut lines, &[FIRST], 0);
    Ok(())
}
