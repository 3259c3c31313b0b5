//! What stands before the first message of a domain in a file.

use super::running::run;
use super::session::*;
use std::alloc::{AllocError, Global};
use std::test::*;
use worked_examples::header;
use worked_examples::recordings::{FIRST_OF_1, FIRST_OF_2};

// A message of this length: its header, and its sets.
fn append(
    octets: &mut Vec<u8>,
    length: u16,
    sequence: u32,
    domain: u32,
    sets: &[u8],
) -> Result<(), AllocError> {
    octets.extend_from_slice(&header(length, sequence, domain))?;
    octets.extend_from_slice(sets)
}

// A file of the second message of a domain on: one message without sets, and one for each template in
// force. The withdrawn template is not among them. The sequence number is the one that is due.
#[test]
fn templates_in_force(rt: HostRuntime) -> Result<(), Fail> {
    let alloc: Global = rt.alloc();
    let text = session(alloc)?;
    let (files, _) = run(alloc, &text, 1, true, 10_000)?;
    let mut first = Vec::new(alloc);
    append(&mut first, 16, 3, 1, &[])?;
    append(&mut first, 36, 3, 1, &FIRST_OF_1[16..36])?;
    append(&mut first, 28, 3, 1, &FIRST_OF_1[36..48])?;
    first.extend_from_slice(WITHDRAWS)?;
    assert_eq!(rt;
        files.finished.get(2).map(|f| f.as_slice()),
        Some(first.as_slice())
    );
    let mut next = Vec::new(alloc);
    append(&mut next, 16, 12, 1, &[])?;
    append(&mut next, 36, 12, 1, &FIRST_OF_1[16..36])?;
    next.extend_from_slice(NEXT_OF_1)?;
    assert_eq!(rt;
        files.finished.get(4).map(|f| f.as_slice()),
        Some(next.as_slice())
    );
    Ok(())
}

// An options template. After an unknown set no sequence number is due, so that of the message stands
// there; later it is 6, and the message steps backward from it.
#[test]
fn options_template(rt: HostRuntime) -> Result<(), Fail> {
    let alloc: Global = rt.alloc();
    let text = session(alloc)?;
    let (files, _) = run(alloc, &text, 1, true, 10_000)?;
    for (file, sequence, message) in [(5, 5, AFTER_UNKNOWN_SET), (7, 6, STEPS_BACKWARD)] {
        let mut octets = Vec::new(alloc);
        append(&mut octets, 16, sequence, 2, &[])?;
        append(&mut octets, 34, sequence, 2, &FIRST_OF_2[16..34])?;
        octets.extend_from_slice(message)?;
        assert_eq!(rt;
            files.finished.get(file).map(|f| f.as_slice()),
            Some(octets.as_slice())
        );
    }
    Ok(())
}

// A domain that no earlier file has needs none.
#[test]
fn new_domain(rt: HostRuntime) -> Result<(), Fail> {
    let alloc: Global = rt.alloc();
    let text = session(alloc)?;
    let (files, _) = run(alloc, &text, 1, true, 10_000)?;
    for (file, message) in [(0, FIRST_OF_1), (1, FIRST_OF_2), (8, FIRST_OF_3)] {
        assert_eq!(rt;
            files.finished.get(file).map(|f| f.as_slice()),
            Some(message)
        );
    }
    Ok(())
}
