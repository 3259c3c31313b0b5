//! How a recording ends: within a message, at a malformed one, at a read, and where a file isn't written.

use super::running::{run, sums_of};
use super::session::{SESSION_LENGTH, session};
use ipfix_message::MessageFault;
use ipfix_session::{ScriptSource, SessionFault, SessionLimits};
use recording_files::{FileReport, MemoryFiles, RecordFault, ScriptClock, record};
use std::alloc::Global;
use std::test::*;
use worked_examples::faults::VERSION_9;
use worked_examples::recordings::FIRST_OF_1;
use worked_examples::text_of;

// The first octets of a text, or all if it has fewer.
fn first_of(text: &[u8], count: usize) -> &[u8] {
    &text[..count.min(text.len())]
}

#[test]
fn a_cut_end(rt: HostRuntime) -> Result<(), Fail> {
    let alloc: Global = rt.alloc();
    let text = session(alloc)?;
    let (files, recorded) = run(alloc, first_of(&text, SESSION_LENGTH - 3), 40, false, 1000)?;
    assert_eq!(rt; recorded.ended, Err(RecordFault::Truncated));
    assert_eq!(rt; files.unfinished.as_slice(), first_of(&text, 317));
    assert_eq!(rt; sums_of(alloc, &files).records, 11);
    Ok(())
}

// What follows a malformed message stands in no file.
#[test]
fn a_malformed_message(rt: HostRuntime) -> Result<(), Fail> {
    let alloc: Global = rt.alloc();
    let text = session(alloc)?;
    let longer = text_of(alloc, &[&text, VERSION_9, &text])?;
    for (is_over, finished) in [(false, 0), (true, 7)] {
        let (files, recorded) = run(alloc, &longer, 40, is_over, 10_000)?;
        assert_eq!(rt;
            recorded.ended,
            Err(RecordFault::Message(MessageFault::Version))
        );
        assert_eq!(rt; files.finished.len(), finished);
        assert_eq!(rt; sums_of(alloc, &files).records, 12);
        assert_eq!(rt; sums_of(alloc, &files).fault, None);
    }
    Ok(())
}

// Files that have room for 100 octets: the first message stands whole, and then the first octets of the
// next.
#[test]
fn a_full_place(rt: HostRuntime) -> Result<(), Fail> {
    let alloc: Global = rt.alloc();
    let text = session(alloc)?;
    let (files, recorded) = run(alloc, &text, 40, false, 100)?;
    assert_eq!(rt; recorded.ended, Err(RecordFault::NotWritten));
    assert_eq!(rt; files.failed, 1);
    assert_eq!(rt; files.unfinished.as_slice(), first_of(&text, 100));
    let sums = sums_of(alloc, &files);
    assert_eq!(rt; sums.records, 3);
    assert_eq!(rt; sums.fault, Some(SessionFault::Truncated));
    let first = FileReport {
        messages: 1,
        records: 3,
        ..FileReport::EMPTY
    };
    assert_eq!(rt; recorded.last, first);
    assert_eq!(rt; recorded.report.report.messages, 1);
    assert_eq!(rt;
        recorded.report.report.fault,
        Some(SessionFault::SinkClosed)
    );
    let fault = RecordFault::NotWritten;
    assert_eq!(rt; (fault.number(), fault.name()), (19, "NotWritten"));
    Ok(())
}

#[test]
fn reads_that_end_it(rt: HostRuntime) -> Result<(), Fail> {
    let alloc: Global = rt.alloc();
    for (fail_at, reads, fault, messages) in [
        (Some(71), 100, RecordFault::ReadFailed, 1),
        (None, 2, RecordFault::TooManyReads, 2),
    ] {
        let mut source = ScriptSource::new(session(alloc)?, 71, None, fail_at);
        let mut files = MemoryFiles::new(alloc, 1000);
        let mut clock = ScriptClock::new(Vec::new(alloc));
        let limits = SessionLimits {
            reads,
            templates: None,
        };
        let recorded = record(alloc, &mut source, &mut files, &mut clock, limits);
        assert_eq!(rt; recorded.ended, Err(fault));
        assert_eq!(rt; recorded.last.messages, messages);
        assert_eq!(rt; recorded.report.report.messages, messages);
        assert_eq!(rt; files.unfinished.get(..71), Some(FIRST_OF_1));
    }
    Ok(())
}
