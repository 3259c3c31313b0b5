//! What the templates of a session may count. Each number was added up by hand: a domain counts 16, a template 8 and
//! its fields.

use ipfix_message::MessageFault;
use ipfix_session::{
    FromReader, READ_LIMIT, Session, SessionFault, SessionLimits, SessionReport, VecSink, drive,
    drive_in_full,
};
use std::alloc::Global;
use std::test::*;
use worked_examples::{header, text_of};

const TOO_MANY: SessionFault = SessionFault::Message(MessageFault::TooManyFields);

// A template set of 12 octets: template 257 with element 2 in 4 octets. The template counts 9.
const TEMPLATE_257: [u8; 12] = [0, 2, 0, 12, 1, 1, 0, 1, 0, 2, 0, 4];

// The same of template 259.
const TEMPLATE_259: [u8; 12] = [0, 2, 0, 12, 1, 3, 0, 1, 0, 2, 0, 4];

// An options template set of 18 octets: options template 258 with element 149 as its scope, and element 2. The
// template counts 10.
const OPTIONS_258: [u8; 18] = [0, 3, 0, 18, 1, 2, 0, 2, 0, 1, 0, 149, 0, 4, 0, 2, 0, 4];

// A template set of 8 octets that withdraws template 257.
const WITHDRAWAL_257: [u8; 8] = [0, 2, 0, 8, 1, 1, 0, 0];

// A data set of 8 octets with one record of template 257.
const RECORD_257: [u8; 8] = [1, 1, 0, 8, 0, 0, 0, 7];

// The report of these parts of messages, whose templates may count so much.
fn report_within(
    alloc: Global,
    parts: &[&[u8]],
    templates: Option<u64>,
) -> Result<SessionReport, Fail> {
    let text = text_of(alloc, parts)?;
    let mut source = FromReader::new(text.as_slice());
    let mut sink = VecSink::new(alloc);
    let limits = SessionLimits {
        reads: READ_LIMIT,
        templates,
    };
    Ok(drive_in_full(alloc, &mut source, &mut sink, limits).report)
}

// How a session ended, and how many messages count.
type Ended = (Option<SessionFault>, u64);

// How sessions of these parts end, the templates of one of which may count so much, and those of the other one less.
fn at_and_below(alloc: Global, parts: &[&[u8]], most: u64) -> Result<[Ended; 2], Fail> {
    let reached = report_within(alloc, parts, Some(most))?;
    let less = report_within(alloc, parts, Some(most.saturating_sub(1)))?;
    Ok([
        (reached.fault, reached.messages),
        (less.fault, less.messages),
    ])
}

// So many messages count, and below the limit so many come before the first that leaves too much.
fn reaches(messages: u64, before: u64) -> [Ended; 2] {
    [(None, messages), (Some(TOO_MANY), before)]
}

#[test]
fn templates_may_count_a_limit_and_no_more(rt: HostRuntime) -> Result<(), Fail> {
    let alloc: Global = rt.alloc();
    let (one, bare) = (header(28, 0, 1), header(16, 0, 1));
    let with_options = header(34, 0, 1);
    let found = [
        at_and_below(alloc, &[&bare], 16)?,
        at_and_below(alloc, &[&one, &TEMPLATE_257], 25)?,
        at_and_below(
            alloc,
            &[&one, &TEMPLATE_257, &with_options, &OPTIONS_258],
            35,
        )?,
    ];
    assert_eq!(rt; found, [reaches(1, 0), reaches(1, 0), reaches(2, 1)]);
    // Without a message nothing counts.
    assert_eq!(rt; at_and_below(alloc, &[], 1)?, [(None, 0), (None, 0)]);
    Ok(())
}

#[test]
fn templates_of_all_domains_count(rt: HostRuntime) -> Result<(), Fail> {
    let alloc: Global = rt.alloc();
    let (one, of_two) = (header(28, 0, 1), header(28, 0, 2));
    let bare_of_two = header(16, 0, 2);
    let found = [
        at_and_below(alloc, &[&one, &TEMPLATE_257, &of_two, &TEMPLATE_257], 50)?,
        at_and_below(alloc, &[&one, &TEMPLATE_257, &bare_of_two], 41)?,
    ];
    assert_eq!(rt; found, [reaches(2, 1), reaches(2, 1)]);
    Ok(())
}

// The same template again adds nothing, and one that was withdrawn counts no more.
#[test]
fn what_is_in_force_counts(rt: HostRuntime) -> Result<(), Fail> {
    let alloc: Global = rt.alloc();
    let one = header(28, 0, 1);
    let withdrawal = header(24, 0, 1);
    let again: [&[u8]; 4] = [&one, &TEMPLATE_257, &one, &TEMPLATE_257];
    let after: [&[u8]; 6] = [
        &one,
        &TEMPLATE_257,
        &withdrawal,
        &WITHDRAWAL_257,
        &one,
        &TEMPLATE_259,
    ];
    let found = [
        at_and_below(alloc, &again, 25)?,
        at_and_below(alloc, &after, 25)?,
    ];
    assert_eq!(rt; found, [reaches(2, 0), reaches(3, 0)]);
    let bare = header(16, 0, 1);
    let three_sets = header(48, 0, 1);
    let at_once: [&[u8]; 5] = [
        &bare,
        &three_sets,
        &TEMPLATE_257,
        &WITHDRAWAL_257,
        &TEMPLATE_259,
    ];
    assert_eq!(rt; at_and_below(alloc, &at_once, 25)?, reaches(2, 1));
    Ok(())
}

#[test]
fn a_message_that_leaves_too_much_gives_none_of_its_records(rt: HostRuntime) -> Result<(), Fail> {
    let alloc: Global = rt.alloc();
    let first = header(36, 0, 1);
    let second = header(36, 1, 1);
    let parts: [&[u8]; 6] = [
        &first,
        &TEMPLATE_257,
        &RECORD_257,
        &second,
        &TEMPLATE_259,
        &RECORD_257,
    ];
    for (limit, messages, fault) in [
        (None, 2, None),
        (Some(34), 2, None),
        (Some(33), 1, Some(TOO_MANY)),
        (Some(24), 0, Some(TOO_MANY)),
        (Some(0), 0, Some(TOO_MANY)),
    ] {
        let report = report_within(alloc, &parts, limit)?;
        assert_eq!(rt; (report.messages, report.delivered), (messages, messages));
        assert_eq!(rt; report.fault, fault);
    }
    Ok(())
}

// Two octets are left after the template set, which is too few for a set.
#[test]
fn a_fault_of_the_message_itself_comes_first(rt: HostRuntime) -> Result<(), Fail> {
    let cut = header(30, 0, 1);
    let report = report_within(rt.alloc(), &[&cut, &TEMPLATE_257, &[0, 0]], Some(24))?;
    assert_eq!(rt;
        report.fault,
        Some(SessionFault::Message(MessageFault::SetHeader))
    );
    Ok(())
}

#[test]
fn a_session_that_is_fed_has_a_limit(rt: HostRuntime) -> Result<(), Fail> {
    let alloc: Global = rt.alloc();
    let one = header(28, 0, 1);
    let of_two = header(28, 0, 2);
    let begun = text_of(alloc, &[&one, &TEMPLATE_257, &of_two])?;
    let mut sink = VecSink::new(alloc);
    let mut session = Session::with_limit(alloc, Some(49));
    for piece in begun.as_slice().chunks(7) {
        session.feed(alloc, piece, &mut sink)?;
    }
    assert_eq!(rt;
        session.feed(alloc, &TEMPLATE_257, &mut sink),
        Err(TOO_MANY)
    );
    assert_eq!(rt;
        session.feed(alloc, &TEMPLATE_257, &mut sink),
        Err(TOO_MANY)
    );
    let full = session.finish_in_full();
    assert_eq!(rt;
        (full.report.messages, full.report.fault),
        (1, Some(TOO_MANY))
    );
    assert_eq!(rt; (full.stopped_at.message, full.stopped_at.octet), (2, 28));
    assert!(rt; full.domains.is_none());
    Ok(())
}

#[test]
fn a_session_without_a_limit_has_none(rt: HostRuntime) -> Result<(), Fail> {
    let alloc: Global = rt.alloc();
    let one = header(28, 0, 1);
    let text = text_of(alloc, &[&one, &TEMPLATE_257, &one, &TEMPLATE_259])?;
    let mut source = FromReader::new(text.as_slice());
    let report = drive(alloc, &mut source, &mut VecSink::new(alloc), READ_LIMIT);
    assert_eq!(rt; (report.messages, report.fault), (2, None));
    Ok(())
}
