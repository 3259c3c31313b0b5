//! Messages that are cut, and messages with a wrong length (RFC 7011, section 3).

use super::examples::examples;
use super::runs::{Run, assert_one_meaning, driven};
use ipfix_message::{Domains, MessageFault};
use std::alloc::Global;
use std::process::Abort;
use std::test::*;
use worked_examples::faults::VERSION_9_AND_LENGTH_20;
use worked_examples::flows::ONE_FLOW;
use worked_examples::templates::VARIABLE_LENGTHS;
use worked_examples::text_of;

// That the front of a message is refused.
fn assert_cut(rt: &impl Abort, alloc: Global, message: &[u8]) {
    for kept in 0..message.len() {
        assert_front(rt, alloc, &message[..kept]);
    }
}

fn assert_front(rt: &impl Abort, alloc: Global, front: &[u8]) {
    let refused = Domains::new(alloc).decode(alloc, front).err();
    assert_eq!(rt; refused, Some(MessageFault::MessageLength));
    let run = driven(alloc, front);
    let fault = if front.is_empty() { None } else { Some(14) };
    assert_eq!(rt; run.fault(), fault, "{}", front.len());
    assert_eq!(rt; run.report.messages, 0);
    assert_eq!(rt; run.records().len(), 0);
}

// That the fronts of these messages are refused.
fn assert_all_cut(rt: &impl Abort, alloc: Global, messages: &[&[u8]]) {
    for message in messages {
        assert_cut(rt, alloc, message);
    }
}

// Each message cut at every octet.
#[test]
fn refuses_messages_cut_at_each_octet(rt: HostRuntime) {
    for example in examples() {
        assert_all_cut(&rt, rt.alloc(), example.messages);
    }
    let refused = Domains::new(rt.alloc())
        .decode(rt.alloc(), VERSION_9_AND_LENGTH_20)
        .err();
    assert_eq!(rt; refused, Some(MessageFault::Version));
}

// Puts a number of two octets into a text; false where it ends before.
fn put_number(text: &mut [u8], at: usize, number: u16) -> bool {
    let [high, low] = number.to_be_bytes();
    if at < text.len() && 1 < text.len() - at {
        text[at] = high;
        text[at + 1] = low;
        return true;
    }
    false
}

// Each length with a wrong number.
#[test]
fn refuses_wrong_lengths(rt: HostRuntime) -> Result<(), Fail> {
    let alloc = rt.alloc();
    let all = [0, 3, 4, 65_535];
    for (message, at, numbers, fault) in [
        (ONE_FLOW, 2, &all[..3], 2),
        (ONE_FLOW, 2, &all[3..], 14),
        (ONE_FLOW, 18, &[0, 3, 65_535], 4),
        (ONE_FLOW, 42, &all, 4),
        (VARIABLE_LENGTHS, 2, &all[..3], 2),
        (VARIABLE_LENGTHS, 2, &all[3..], 14),
        (VARIABLE_LENGTHS, 18, &all, 4),
        (VARIABLE_LENGTHS, 34, &all, 4),
        (VARIABLE_LENGTHS, 293, &all, 10),
        (VARIABLE_LENGTHS, 551, &all, 10),
    ] {
        for number in numbers {
            let run = with_number(&rt, alloc, message, at, *number)?;
            assert_eq!(rt; run.fault(), Some(fault), "{number} at {at}");
            assert_eq!(rt; (run.report.messages, run.report.delivered), (0, 0));
        }
    }
    Ok(())
}

// What a message gives, fed and driven, with another number of two octets.
fn with_number(
    rt: &impl Abort,
    alloc: Global,
    message: &[u8],
    at: usize,
    number: u16,
) -> Result<Run, Fail> {
    let mut text = Vec::from_slice(alloc, message)?;
    assert!(rt; put_number(&mut text, at, number));
    let run = assert_one_meaning(rt, alloc, &text);
    let read = driven(alloc, &text);
    assert_eq!(rt; run.report, read.report);
    Ok(run)
}

// What stood in the template set is read as sets then.
#[test]
fn reads_what_is_left_of_a_short_template_set_as_sets(rt: HostRuntime) -> Result<(), Fail> {
    let run = with_number(&rt, rt.alloc(), ONE_FLOW, 18, 4)?;
    assert_eq!(rt; run.fault(), None);
    let sets = (run.report.skipped_sets, run.report.unknown_sets);
    assert_eq!(rt; (run.report.delivered, sets), (0, (3, 2)));
    Ok(())
}

// Each two octets at the front of a text, its lengths among them, with other numbers: it has one meaning.
#[test]
fn other_numbers_have_one_meaning(rt: HostRuntime) -> Result<(), Fail> {
    let alloc = rt.alloc();
    for example in examples() {
        let whole = text_of(alloc, example.messages)?;
        for at in 0..whole.len().min(200) {
            for number in [0, 3, 4, 65_535] {
                let mut text = Vec::from_slice(alloc, &whole)?;
                if put_number(&mut text, at, number) {
                    let _ = assert_one_meaning(&rt, alloc, &text);
                }
            }
        }
    }
    Ok(())
}
