//! What is reported of each file, and of the session.

use super::running::run;
use super::session::session;
use recording_files::{FileReport, FileSeries, MemoryFiles, NotWritten, PeriodClock, ScriptClock};
use std::alloc::Global;
use std::test::*;

// The messages, the records, the lost ones, the steps backward, the unknown sets and the unaccounted records.
fn numbers(report: &FileReport) -> [u64; 6] {
    [
        report.messages,
        report.records,
        report.lost,
        report.backward,
        report.unknown_sets,
        report.unaccounted,
    ]
}

// Pieces of 40 octets end the messages 1; 2; 3 and 4; 5; 6; 7 and 8; 9. The third jumps from sequence number
// 3 to 10, and the fourth has the unknown set. The sixth begins at 5 after that set, which ended at 1. The
// seventh jumps from 14 to 20, and the eighth steps back from 6 to 3.
const BY_FILE: [[u64; 6]; 7] = [
    [1, 3, 0, 0, 0, 0],
    [1, 1, 0, 0, 0, 0],
    [2, 2, 7, 0, 1, 0],
    [1, 2, 0, 0, 0, 0],
    [1, 1, 0, 0, 0, 4],
    [2, 2, 6, 1, 0, 0],
    [1, 1, 0, 0, 0, 0],
];

#[test]
fn reports_by_file(rt: HostRuntime) -> Result<(), Fail> {
    let alloc: Global = rt.alloc();
    let text = session(alloc)?;
    let (files, recorded) = run(alloc, &text, 40, true, 10_000)?;
    assert_eq!(rt; files.reports.len(), 7);
    for (report, expected) in files.reports.iter().zip(BY_FILE) {
        assert_eq!(rt; numbers(report), expected);
    }
    assert_eq!(rt; recorded.last, FileReport::EMPTY);
    let report = &recorded.report.report;
    assert_eq!(rt; (report.messages, report.delivered), (9, 12));
    assert_eq!(rt; (report.unknown_sets, report.fault), (1, None));
    Ok(())
}

#[test]
fn one_file(rt: HostRuntime) -> Result<(), Fail> {
    let alloc: Global = rt.alloc();
    let text = session(alloc)?;
    let (files, recorded) = run(alloc, &text, 65536, false, 10_000)?;
    assert_eq!(rt; files.reports.len(), 0);
    assert_eq!(rt; numbers(&recorded.last), [9, 12, 13, 1, 1, 4]);
    Ok(())
}

// Writes a file, and finishes it if a clock tells so.
fn write_file<F: FileSeries, C: PeriodClock>(
    files: &mut F,
    clock: &mut C,
    octets: &[u8],
    report: &FileReport,
) -> Result<(), NotWritten> {
    files.append(octets)?;
    if clock.is_over() {
        files.turn(report)?;
    }
    Ok(())
}

// Files that have room for five octets: a call that fails is counted, and finishes nothing.
#[test]
fn through_their_bounds(rt: HostRuntime) -> Result<(), Fail> {
    let alloc: Global = rt.alloc();
    let mut files = MemoryFiles::new(alloc, 5);
    let mut answers = Vec::new(alloc);
    answers.push(true)?;
    answers.push(false)?;
    answers.push(true)?;
    let mut clock = ScriptClock::new(answers);
    let report = FileReport {
        messages: 1,
        ..FileReport::EMPTY
    };
    assert_eq!(rt; write_file(&mut files, &mut clock, b"one", &report), Ok(()));
    assert_eq!(rt; write_file(&mut files, &mut clock, b"t", &report), Ok(()));
    assert_eq!(rt;
        write_file(&mut files, &mut clock, b"wo", &report),
        Err(NotWritten)
    );
    assert_eq!(rt; files.finished.len(), 1);
    assert_eq!(rt; files.reports.first().copied(), Some(report));
    assert_eq!(rt; files.reports.len(), 1);
    assert_eq!(rt; files.unfinished.as_slice(), b"tw".as_slice());
    assert_eq!(rt; files.failed, 1);
    Ok(())
}
