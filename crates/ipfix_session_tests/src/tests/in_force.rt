//! The templates that are in force at the end of a session.

use super::narrow::Narrow;
use ipfix_session::{
    FromReader, FullReport, READ_LIMIT, ScriptSource, Session, SessionFault, SessionLimits,
    VecSink, drive_in_full,
};
use std::alloc::Global;
use std::test::*;
use worked_examples::sequences::{ONE_AT_0, TWO_AT_0};
use worked_examples::{header, text_of};

// A template set of 12 octets: template 257 with element 2 in 4 octets.
const TEMPLATE_257: [u8; 12] = [0, 2, 0, 12, 1, 1, 0, 1, 0, 2, 0, 4];

// A template set of 8 octets that withdraws template 256.
const WITHDRAWAL: [u8; 8] = [0, 2, 0, 8, 1, 0, 0, 0];

// So many reads, and no limit of templates.
fn reads(limit: u64) -> SessionLimits {
    SessionLimits {
        reads: limit,
        templates: None,
    }
}

// How many fields the template has that is told for an id of a domain, if one is.
fn fields_told(full: &FullReport, domain: u32, id: u16) -> Option<usize> {
    let domains = full.domains.as_ref()?;
    let template = domains.lookup(domain, id)?;
    Some(template.specs.len())
}

#[test]
fn tells_the_templates_in_force_at_the_end(rt: HostRuntime) -> Result<(), Fail> {
    // Domain 1 gets templates 256 and 257, and withdraws the first; domain 2 gets 257.
    let text = text_of(
        rt.alloc(),
        &[
            ONE_AT_0,
            &header(28, 1, 1),
            &TEMPLATE_257,
            &header(28, 0, 2),
            &TEMPLATE_257,
            &header(24, 1, 1),
            &WITHDRAWAL,
        ],
    )?;
    let mut source = FromReader::new(text.as_slice());
    let mut sink = VecSink::new(rt.alloc());
    let full = drive_in_full(rt.alloc(), &mut source, &mut sink, reads(READ_LIMIT));
    assert_eq!(rt; full.report.fault, None);
    assert_eq!(rt; fields_told(&full, 1, 256), None);
    assert_eq!(rt; fields_told(&full, 1, 257), Some(1));
    assert_eq!(rt; fields_told(&full, 2, 256), None);
    assert_eq!(rt; fields_told(&full, 2, 257), Some(1));
    assert_eq!(rt; fields_told(&full, 3, 257), None);
    Ok(())
}

#[test]
fn tells_domains_by_how_the_session_ended(rt: HostRuntime) -> Result<(), Fail> {
    let alloc: Global = rt.alloc();
    let bad = [9; 16];
    for (next, fail_at, limit, fault, told) in [
        (&[][..], None, 100, None, Some(1)),
        (&bad[..3], None, 100, Some(14), Some(1)),
        (&[], Some(40), 100, Some(15), Some(1)),
        (&[], None, 1, Some(17), Some(1)),
        (&bad[..], None, 100, Some(1), None),
    ] {
        let text = text_of(alloc, &[TWO_AT_0, next])?;
        let mut source = ScriptSource::new(text, 64, None, fail_at);
        let full = drive_in_full(alloc, &mut source, &mut VecSink::new(alloc), reads(limit));
        assert_eq!(rt; full.report.fault.map(|fault| fault.number()), fault);
        assert_eq!(rt; fields_told(&full, 1, 256), told);
    }
    Ok(())
}

#[test]
fn a_sink_that_takes_no_more_leaves_no_domains(rt: HostRuntime) -> Result<(), Fail> {
    let mut source = FromReader::new(TWO_AT_0);
    let mut sink = Narrow::new(rt.alloc(), 1);
    let full = drive_in_full(rt.alloc(), &mut source, &mut sink, reads(READ_LIMIT));
    assert_eq!(rt; full.report.fault, Some(SessionFault::SinkClosed));
    assert!(rt; full.domains.is_none());
    Ok(())
}

#[test]
fn feeding_tells_the_templates_in_force(rt: HostRuntime) -> Result<(), Fail> {
    let mut sink = VecSink::new(rt.alloc());
    let mut session = Session::new(rt.alloc());
    for piece in TWO_AT_0.chunks(7) {
        session.feed(rt.alloc(), piece, &mut sink)?;
    }
    let full = session.finish_in_full();
    assert_eq!(rt; fields_told(&full, 1, 256), Some(1));
    Ok(())
}
