//! The lines that are told, as the program's manual has them.

use recording_files::{FileEnd, FileReport, Recovered};
use recording_lines::{
    WholeLines, write_finished, write_not_accepted, write_not_finished, write_outcome,
    write_peer_fault, write_refused, write_threads,
};
use std::alloc::{AllocError, Global};
use std::io;
use std::net::{IpAddr, Ipv4Addr, SocketAddr};
use std::test::*;
use worked_examples::FailingWriter;

const REPORT: FileReport = FileReport {
    messages: 2,
    records: 11,
    lost: 3,
    backward: 1,
    unknown_sets: 0,
    unaccounted: 0,
    ignored_withdrawals: 0,
};

const UNACCOUNTED: FileReport = FileReport {
    messages: 2,
    records: 11,
    lost: 3,
    backward: 1,
    unknown_sets: 0,
    unaccounted: 4,
    ignored_withdrawals: 2,
};

const LINES: &str = "collectd: a: messages 2, records 11, lost 3, backward 1
collectd: a: messages 2, records 11, lost 3, backward 1, unknown_sets 0, unaccounted 4, ignored_withdrawals 2
collectd: not finished: a
collectd: session 192.0.2.1:4739: fault 15 ReadFailed
collectd: refused 7 connections, last 192.0.2.1:4739
collectd: record: accept failed 12 times
collectd: record: threads 3 of 64
collectd: recovered: a: messages 2, records 11, lost 3, backward 1
collectd: recovered: a: messages 2, records 11, lost 3, backward 1, unknown_sets 0, unaccounted 4, cut off 5 octets
collectd: recovered: a: messages 2, records 11, lost 3, backward 1, ends 5 octets into a message
collectd: not recovered: a: removed 5 octets, no whole message
collectd: not recovered: a
";

fn peer() -> SocketAddr {
    SocketAddr::new(IpAddr::V4(Ipv4Addr::new(192, 0, 2, 1)), 4739)
}

// A file that was recovered.
fn placed(report: FileReport, end: FileEnd) -> Recovered {
    Recovered::Placed { report, end }
}

// Tells a line of each kind.
fn tell_all(out: &mut WholeLines<&mut FailingWriter>) -> io::Result<()> {
    write_finished("a", &REPORT, out)?;
    write_finished("a", &UNACCOUNTED, out)?;
    write_not_finished("a", out)?;
    write_peer_fault(peer(), 15, "ReadFailed", out)?;
    write_refused(7, peer(), out)?;
    write_not_accepted(12, out)?;
    write_threads(3, 64, out)?;
    for outcome in [
        placed(REPORT, FileEnd::Whole),
        placed(UNACCOUNTED, FileEnd::CutOff(5)),
        placed(REPORT, FileEnd::Truncated(5)),
        Recovered::Removed(5),
        Recovered::Stayed,
    ] {
        write_outcome("a", outcome, out)?;
    }
    Ok(())
}

// The first lines of a text.
fn first_lines(alloc: Global, text: &str, count: u64) -> Result<String, AllocError> {
    let mut lines = String::new(alloc);
    let mut taken = 0u64;
    for line in text.lines() {
        if taken < count {
            lines.push_str(line)?;
            lines.push_str("\n")?;
        }
        taken = taken.saturating_add(1);
    }
    Ok(lines)
}

// Each line is one write. Where one fails that is answered, and nothing is written after it.
#[test]
fn each_line_is_one_write(rt: HostRuntime) -> Result<(), Fail> {
    let alloc: Global = rt.alloc();
    for calls in 0..13 {
        let mut out = FailingWriter::new(alloc, 1000, calls);
        let told = tell_all(&mut WholeLines::new(&mut out));
        assert_eq!(rt; told.is_ok(), calls == 12);
        let wanted = first_lines(alloc, LINES, calls)?;
        assert!(rt; out.taken.as_slice() == wanted.as_bytes(), "{calls}");
    }
    Ok(())
}

// Tells the longest lines: of the longest path that the system takes, and of one that it lists.
fn tell_longest(alloc: Global, out: &mut WholeLines<&mut FailingWriter>) -> io::Result<()> {
    let most = FileReport {
        messages: u64::MAX,
        records: u64::MAX,
        lost: u64::MAX,
        backward: u64::MAX,
        unknown_sets: u64::MAX,
        unaccounted: u64::MAX,
        ignored_withdrawals: u64::MAX,
    };
    let longest = "a".repeat(alloc, 4095)?;
    write_finished(longest.as_str(), &most, out)?;
    let recovered = placed(most, FileEnd::Truncated(u64::MAX));
    write_outcome(longest.as_str(), recovered, out)?;
    write_outcome("a".repeat(alloc, 4351)?.as_str(), Recovered::Stayed, out)
}

// There is room for them, and they are told whole.
#[test]
fn longest_lines(rt: HostRuntime) -> Result<(), Fail> {
    let alloc: Global = rt.alloc();
    let mut out = FailingWriter::new(alloc, 15_000, 3);
    tell_longest(alloc, &mut WholeLines::new(&mut out))?;
    assert_eq!(rt; out.taken.len(), 4095 + 241 + 4095 + 259 + 4351 + 26);
    Ok(())
}
