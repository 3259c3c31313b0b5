//! Worked examples of the profile, read, fed and driven.

mod balances;
mod damage;
mod driving;
mod examples;
mod in_force;
mod limits;
mod memory;
mod narrow;
mod runs;
mod template_limits;
mod texts;

use ipfix_message::MessageFault;
use ipfix_session::*;
use std::test::*;

// The octets that a source gives until its end or its failure, the reads it took, and whether it
// showed its end.
fn drain<S: Source>(source: &mut S, octets: &mut Vec<u8>) -> Result<(u64, bool), Fail> {
    let mut buffer = [0; 4];
    for reads in 1..100 {
        match source.read(&mut buffer) {
            Ok(0) => return Ok((reads, true)),
            Ok(count) => octets.extend_from_slice(&buffer[..count])?,
            Err(ReadError::Interrupted) => {}
            Err(ReadError::Failed) => return Ok((reads, false)),
        }
    }
    Err("no end".into())
}

#[test]
fn sources_give_their_octets(rt: HostRuntime) -> Result<(), Fail> {
    let text = [1, 2, 3, 4, 5, 6, 7, 8, 9, 10];
    let mut octets = Vec::new(rt.alloc());
    let mut reader = FromReader::new(text.as_slice());
    assert_eq!(rt; drain(&mut reader, &mut octets)?, (4, true));
    assert_eq!(rt; octets.as_slice(), text.as_slice());
    for (piece, interrupt_at, fail_at, reads, given) in [
        (3, None, None, 5, 10),
        (1, Some(3), None, 12, 10),
        (9, None, Some(7), 3, 7),
        (3, Some(1), Some(10), 6, 10),
        (3, None, Some(11), 5, 10),
    ] {
        octets.clear();
        let copy = Vec::from_slice(rt.alloc(), &text)?;
        let mut source = ScriptSource::new(copy, piece, interrupt_at, fail_at);
        let ended = fail_at.is_none_or(|at| text.len() < at);
        assert_eq!(rt; drain(&mut source, &mut octets)?, (reads, ended));
        assert_eq!(rt; Some(octets.as_slice()), text.get(..given));
    }
    Ok(())
}

#[test]
fn faults_have_numbers_and_names(rt: HostRuntime) -> Result<(), Fail> {
    for (fault, number, name) in [
        (SessionFault::from(MessageFault::RecordCut), 10, "RecordCut"),
        (
            SessionFault::from(MessageFault::TooManyFields),
            21,
            "TooManyFields",
        ),
        (SessionFault::Truncated, 14, "Truncated"),
        (SessionFault::ReadFailed, 15, "ReadFailed"),
        (SessionFault::TooManyReads, 17, "TooManyReads"),
        (SessionFault::SinkClosed, 18, "SinkClosed"),
    ] {
        assert_eq!(rt; fault.number(), number);
        assert_eq!(rt; fault.name(), name);
    }
    Ok(())
}
