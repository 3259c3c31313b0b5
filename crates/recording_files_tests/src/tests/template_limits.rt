//! What the templates of a session that is recorded may count. Each number was added up by hand: a domain counts 16, a
//! template 8 and its fields.

use super::running::sums_of;
use ipfix_message::MessageFault;
use ipfix_session::{ScriptSource, SessionLimits};
use recording_files::{MemoryFiles, RecordFault, RecordedSession, ScriptClock, record};
use std::alloc::{AllocError, Global};
use std::test::*;
use worked_examples::{header, text_of};

const TOO_MANY: RecordFault = RecordFault::Message(MessageFault::TooManyFields);

// A template set of 12 octets: template 257 with element 2 in 4 octets. The template counts 9.
const TEMPLATE_257: [u8; 12] = [0, 2, 0, 12, 1, 1, 0, 1, 0, 2, 0, 4];

// The same of template 259.
const TEMPLATE_259: [u8; 12] = [0, 2, 0, 12, 1, 3, 0, 1, 0, 2, 0, 4];

// An options template set of 18 octets: options template 258 with element 149 as its scope, and element 2. The
// template counts 10.
const OPTIONS_258: [u8; 18] = [0, 3, 0, 18, 1, 2, 0, 2, 0, 1, 0, 149, 0, 4, 0, 2, 0, 4];

// A data set of 8 octets with one record of template 257.
const RECORD_257: [u8; 8] = [1, 1, 0, 8, 0, 0, 0, 7];

// Five messages, after which the templates count 25, 35, 35, 44 and 44. They end at the octets 36, 70, 94, 122 and 146.
fn five_messages(alloc: Global) -> Result<Vec<u8>, AllocError> {
    text_of(
        alloc,
        &[
            &header(36, 0, 1),
            &TEMPLATE_257,
            &RECORD_257,
            &header(34, 1, 1),
            &OPTIONS_258,
            &header(24, 1, 1),
            &RECORD_257,
            &header(28, 2, 1),
            &TEMPLATE_259,
            &header(24, 2, 1),
            &RECORD_257,
        ],
    )
}

// Records them in pieces of 20 octets, where the templates may count so much. The clock tells that the period is over after
// each read, or after none.
fn run_within(
    alloc: Global,
    is_over: bool,
    templates: Option<u64>,
) -> Result<(MemoryFiles, RecordedSession), AllocError> {
    let mut answers = Vec::new(alloc);
    for _ in 0..100 {
        answers.push(is_over)?;
    }
    let mut source = ScriptSource::new(five_messages(alloc)?, 20, None, None);
    let mut files = MemoryFiles::new(alloc, 1000);
    let mut clock = ScriptClock::new(answers);
    let limits = SessionLimits {
        reads: 100,
        templates,
    };
    let recorded = record(alloc, &mut source, &mut files, &mut clock, limits);
    Ok((files, recorded))
}

#[test]
fn a_session_keeps_templates_up_to_the_limit(rt: HostRuntime) -> Result<(), Fail> {
    let alloc: Global = rt.alloc();
    let text = five_messages(alloc)?;
    for (templates, ended, messages, octets) in [
        (None, Ok(()), 5, 146),
        (Some(44), Ok(()), 5, 146),
        (Some(43), Err(TOO_MANY), 3, 94),
        (Some(35), Err(TOO_MANY), 3, 94),
        (Some(34), Err(TOO_MANY), 1, 36),
        (Some(25), Err(TOO_MANY), 1, 36),
        (Some(24), Err(TOO_MANY), 0, 0),
    ] {
        let (files, recorded) = run_within(alloc, false, templates)?;
        assert_eq!(rt; recorded.ended, ended);
        assert_eq!(rt; recorded.last.messages, messages);
        assert_eq!(rt; recorded.report.report.messages, messages);
        assert_eq!(rt; Some(files.unfinished.as_slice()), text.get(..octets));
    }
    assert_eq!(rt; (TOO_MANY.number(), TOO_MANY.name()), (21, "TooManyFields"));
    Ok(())
}

// The fourth message ends the session; each file before is read by itself, and the records of the messages 1 and 3 are there.
#[test]
fn the_files_before_have_their_records(rt: HostRuntime) -> Result<(), Fail> {
    let alloc: Global = rt.alloc();
    for (templates, ended, records) in [(44, Ok(()), 3), (43, Err(TOO_MANY), 2)] {
        let (files, recorded) = run_within(alloc, true, Some(templates))?;
        assert_eq!(rt; recorded.ended, ended);
        let sums = sums_of(alloc, &files);
        assert_eq!(rt; (sums.records, sums.fault), (records, None));
    }
    Ok(())
}
