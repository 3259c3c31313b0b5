//! Limits, failing reads, and faults that stay.

use super::drain;
use super::narrow::Narrow;
use super::runs::{Run, fed};
use ipfix_message::MessageFault;
use ipfix_session::{
    DomainReport, ScriptSource, Session, SessionFault, SessionReport, VecSink, drive,
};
use std::alloc::Global;
use std::process::Abort;
use std::test::*;
use worked_examples::faults::VERSION_9;
use worked_examples::flows::{NEXT_FLOW, ONE_FLOW};
use worked_examples::{header, text_of};

const NOTHING: &[u8] = &[];

#[test]
fn counts_reads_that_fail_and_reads_too_many(rt: HostRuntime) -> Result<(), Fail> {
    for (texts, piece, limit, fail_at, delivered, number) in [
        ([NOTHING; 2], 1, 1, None, 0, None),
        ([NOTHING; 2], 1, 0, None, 0, Some(17)),
        ([ONE_FLOW, NOTHING], 1, 3, None, 0, Some(17)),
        ([ONE_FLOW, NOTHING], 1, 68, None, 1, Some(17)),
        ([ONE_FLOW, NOTHING], 1, 69, None, 1, None),
        ([ONE_FLOW, NOTHING], 68, 2, None, 1, None),
        ([ONE_FLOW, NOTHING], 15, 100, Some(15), 0, Some(15)),
        ([ONE_FLOW, ONE_FLOW], 80, 100, Some(80), 1, Some(15)),
        ([ONE_FLOW, ONE_FLOW], 80, 2, Some(80), 1, Some(15)),
        ([ONE_FLOW, ONE_FLOW], 80, 1, Some(80), 1, Some(17)),
        ([VERSION_9, NOTHING], 16, 1, Some(16), 0, Some(1)),
    ] {
        let text = text_of(rt.alloc(), &texts)?;
        let mut source = ScriptSource::new(text, piece, None, fail_at);
        let run = driven_from(rt.alloc(), &mut source, limit);
        assert_eq!(rt; run.report.messages, delivered);
        assert_eq!(rt; run.report.delivered, delivered);
        assert_eq!(rt; run.fault(), number);
        assert_eq!(rt; run.records().len() as u64, delivered);
    }
    Ok(())
}

// What a source gives in so many reads.
fn driven_from(alloc: Global, source: &mut ScriptSource, limit: u64) -> Run {
    let mut sink = VecSink::new(alloc);
    let report = drive(alloc, source, &mut sink, limit);
    Run { sink, report }
}

// A fault ends the reading.
#[test]
fn reads_no_more_behind_a_fault(rt: HostRuntime) -> Result<(), Fail> {
    let alloc: Global = rt.alloc();
    let text = text_of(alloc, &[VERSION_9, ONE_FLOW])?;
    let mut source = ScriptSource::new(text, 16, None, None);
    let report = drive(alloc, &mut source, &mut VecSink::new(alloc), 100);
    assert_eq!(rt; report.fault.map(|fault| fault.number()), Some(1));
    let mut left = Vec::new(alloc);
    let _ = drain(&mut source, &mut left)?;
    assert_eq!(rt; left.as_slice(), ONE_FLOW);
    Ok(())
}

#[test]
fn a_fault_stays(rt: HostRuntime) -> Result<(), Fail> {
    let alloc: Global = rt.alloc();
    let more = text_of(alloc, &[ONE_FLOW])?;
    let version = SessionFault::Message(MessageFault::Version);
    for (room, texts, fault, messages) in [
        (9, [ONE_FLOW, VERSION_9], version, 1),
        (0, [ONE_FLOW, NOTHING], SessionFault::SinkClosed, 0),
        (1, [ONE_FLOW, NEXT_FLOW], SessionFault::SinkClosed, 1),
    ] {
        let text = text_of(alloc, &texts)?;
        let mut sink = Narrow::new(alloc, room);
        let report = fed_after_fault(&rt, alloc, [&text, &more], &mut sink, fault);
        assert_eq!(rt; sink.records.len() as u64, messages);
        assert_eq!(rt; (report.messages, report.delivered), (messages, messages));
        assert_eq!(rt; report.fault, Some(fault));
    }
    Ok(())
}

// The report of a session that is fed a text with this fault, and then more of it to a sink with room.
fn fed_after_fault(
    rt: &impl Abort,
    alloc: Global,
    [text, more]: [&[u8]; 2],
    sink: &mut Narrow,
    fault: SessionFault,
) -> SessionReport {
    let mut session = Session::new(alloc);
    assert_eq!(rt; session.feed(alloc, text, sink), Err(fault));
    sink.room = 9;
    assert_eq!(rt; session.feed(alloc, more, sink), Err(fault));
    assert_eq!(rt; session.feed(alloc, &[], sink), Err(fault));
    session.finish()
}

// Appends a header alone, or a header and a set whose length is below that of its header.
fn push_message(text: &mut Vec<u8>, domain: u32, alone: bool) -> Result<(), Fail> {
    if alone {
        text.extend_from_slice(&header(16, 0, domain))?;
        return Ok(());
    }
    text.extend_from_slice(&header(20, 0, domain))?;
    text.extend_from_slice(&[1, 0, 0, 3])?;
    Ok(())
}

#[test]
fn refuses_one_domain_too_many(rt: HostRuntime) -> Result<(), Fail> {
    let alloc = rt.alloc();
    for (last, alone, messages, fault) in [
        (0, true, 1025, None),
        (0, false, 1024, Some(4)),
        (1024, true, 1024, Some(11)),
        (1024, false, 1024, Some(11)),
    ] {
        let text = text_of_domains(alloc, last, alone)?;
        let run = fed(alloc, &text, 1000);
        assert_eq!(rt; run.fault(), fault);
        assert_eq!(rt; run.report.messages, messages);
        assert_empty_domains(&rt, &run.report.domains);
    }
    Ok(())
}

// A message for each of 1,024 domains, and one more for the last.
fn text_of_domains(alloc: Global, last: u32, alone: bool) -> Result<Vec<u8>, Fail> {
    let mut text = Vec::new(alloc);
    for domain in 0..1024 {
        push_message(&mut text, domain, true)?;
    }
    push_message(&mut text, last, alone)?;
    Ok(text)
}

// That these are 1,024 domains, counted from 0, without records or losses.
fn assert_empty_domains(rt: &impl Abort, domains: &[DomainReport]) {
    assert_eq!(rt; domains.len(), 1024);
    for (domain, index) in domains.iter().zip(0..1024) {
        assert_eq!(rt;
            (domain.domain, domain.count, domain.lost, domain.backward),
            (index, 0, 0, 0)
        );
    }
}
