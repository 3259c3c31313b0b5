//! Options records at the head of a file: those that told before it when the exporter was started, or how it samples.

use super::running::run;
use recording_files::MemoryFiles;
use std::alloc::{AllocError, Global};
use std::test::*;
use worked_examples::{header, text_of};

// When the exporter of domain 7 was started, and a template of flows.
const STARTED: &[u8] = &[
    // header: 62 octets, sequence 0, domain 7
    0x00, 0x0a, 0x00, 0x3e, 0x65, 0x53, 0xf1, 0x00, 0x00, 0x00, 0x00, 0x00, 0x00, 0x00, 0x00, 0x07,
    // options template set: template 300 with the scope observationDomainId (149), and systemInitTimeMilliseconds (160)
    0x00, 0x03, 0x00, 0x12, 0x01, 0x2c, 0x00, 0x02, 0x00, 0x01, 0x00, 0x95, 0x00, 0x04, 0x00, 0xa0,
    0x00, 0x08, // template set: template 256 with sourceIPv4Address (8)
    0x00, 0x02, 0x00, 0x0c, 0x01, 0x00, 0x00, 0x01, 0x00, 0x08, 0x00, 0x04,
    // data set of template 300: domain 7, 1,700,000,000,000 milliseconds
    0x01, 0x2c, 0x00, 0x10, 0x00, 0x00, 0x00, 0x07, 0x00, 0x00, 0x01, 0x8b, 0xcf, 0xe5, 0x68, 0x00,
];

// A flow of domain 7.
const FLOW: &[u8] = &[
    // header: 24 octets, sequence 1, domain 7
    0x00, 0x0a, 0x00, 0x18, 0x65, 0x53, 0xf1, 0x00, 0x00, 0x00, 0x00, 0x01, 0x00, 0x00, 0x00, 0x07,
    // data set of template 256: 192.0.2.1
    0x01, 0x00, 0x00, 0x08, 0xc0, 0x00, 0x02, 0x01,
];

// Another of it.
const NEXT_FLOW: &[u8] = &[
    // header: 24 octets, sequence 2, domain 7
    0x00, 0x0a, 0x00, 0x18, 0x65, 0x53, 0xf1, 0x00, 0x00, 0x00, 0x00, 0x02, 0x00, 0x00, 0x00, 0x07,
    // data set of template 256: 192.0.2.2
    0x01, 0x00, 0x00, 0x08, 0xc0, 0x00, 0x02, 0x02,
];

// The options template of domain 7 is withdrawn.
const WITHDRAWN: &[u8] = &[
    // header: 24 octets, sequence 1, domain 7
    0x00, 0x0a, 0x00, 0x18, 0x65, 0x53, 0xf1, 0x00, 0x00, 0x00, 0x00, 0x01, 0x00, 0x00, 0x00, 0x07,
    // options template set: withdrawal of template 300
    0x00, 0x03, 0x00, 0x08, 0x01, 0x2c, 0x00, 0x00,
];

// How the exporter samples, by two selectors of domain 0, of which it tells the first again.
const SAMPLES: &[u8] = &[
    // header: 74 octets, sequence 4, domain 0
    0x00, 0x0a, 0x00, 0x4a, 0x65, 0x53, 0xf1, 0x00, 0x00, 0x00, 0x00, 0x04, 0x00, 0x00, 0x00, 0x00,
    // options template set: template 301 with the scope selectorId (302), and samplingInterval (34)
    0x00, 0x03, 0x00, 0x12, 0x01, 0x2d, 0x00, 0x02, 0x00, 0x01, 0x01, 0x2e, 0x00, 0x08, 0x00, 0x22,
    0x00, 0x04, // data set of template 301: one of 100 by selector 1,
    0x01, 0x2d, 0x00, 0x28, 0x00, 0x00, 0x00, 0x00, 0x00, 0x00, 0x00, 0x01, 0x00, 0x00, 0x00, 0x64,
    // one of 50 by selector 2,
    0x00, 0x00, 0x00, 0x00, 0x00, 0x00, 0x00, 0x02, 0x00, 0x00, 0x00, 0x32,
    // and one of 200 by selector 1
    0x00, 0x00, 0x00, 0x00, 0x00, 0x00, 0x00, 0x01, 0x00, 0x00, 0x00, 0xc8,
];

// Messages of a session, each in a file of its own.
fn record_each(alloc: Global, messages: &[&[u8]]) -> Result<MemoryFiles, AllocError> {
    let text = text_of(alloc, messages)?;
    let (files, _) = run(alloc, &text, 1, true, 10_000)?;
    Ok(files)
}

// A message of this length: its header, and its sets.
fn append(
    octets: &mut Vec<u8>,
    length: u16,
    sequence: u32,
    domain: u32,
    sets: &[u8],
) -> Result<(), AllocError> {
    octets.extend_from_slice(&header(length, sequence, domain))?;
    octets.extend_from_slice(sets)
}

// The head of the second file has the options template and the record, with the number that is due less one. Then come the
// domain's templates, with that number, and the message. The third file has it, too.
#[test]
fn init_time_in_the_next_files(rt: HostRuntime) -> Result<(), Fail> {
    let alloc: Global = rt.alloc();
    let files = record_each(alloc, &[STARTED, FLOW, NEXT_FLOW])?;
    for (file, due, message) in [(1, 1, FLOW), (2, 2, NEXT_FLOW)] {
        let mut octets = Vec::new(alloc);
        append(&mut octets, 34, due - 1, 7, &STARTED[16..34])?;
        append(&mut octets, 32, due - 1, 7, &STARTED[46..62])?;
        append(&mut octets, 16, due, 7, &[])?;
        append(&mut octets, 28, due, 7, &STARTED[34..46])?;
        append(&mut octets, 34, due, 7, &STARTED[16..34])?;
        octets.extend_from_slice(message)?;
        assert_eq!(rt;
            files.finished.get(file).map(|f| f.as_slice()),
            Some(octets.as_slice())
        );
    }
    Ok(())
}

// What stands at the head of a file is in none of its numbers.
#[test]
fn head_is_not_reported(rt: HostRuntime) -> Result<(), Fail> {
    let alloc: Global = rt.alloc();
    let files = record_each(alloc, &[STARTED, FLOW])?;
    let report = files
        .reports
        .get(1)
        .map(|r| (r.messages, r.records, r.lost, r.backward));
    assert_eq!(rt; report, Some((1, 1, 0, 0)));
    Ok(())
}

// The last record of each selector, in the order in which they came, before the message of another domain.
#[test]
fn two_selectors_of_another_domain(rt: HostRuntime) -> Result<(), Fail> {
    let alloc: Global = rt.alloc();
    let files = record_each(alloc, &[STARTED, SAMPLES, FLOW])?;
    let mut octets = Vec::new(alloc);
    append(&mut octets, 34, 0, 7, &STARTED[16..34])?;
    append(&mut octets, 32, 0, 7, &STARTED[46..62])?;
    append(&mut octets, 34, 5, 0, &SAMPLES[16..34])?;
    append(&mut octets, 32, 5, 0, &[0x01, 0x2d, 0x00, 0x10])?;
    octets.extend_from_slice(&SAMPLES[50..62])?;
    append(&mut octets, 34, 6, 0, &SAMPLES[16..34])?;
    append(&mut octets, 32, 6, 0, &[0x01, 0x2d, 0x00, 0x10])?;
    octets.extend_from_slice(&SAMPLES[62..74])?;
    append(&mut octets, 16, 1, 7, &[])?;
    append(&mut octets, 28, 1, 7, &STARTED[34..46])?;
    append(&mut octets, 34, 1, 7, &STARTED[16..34])?;
    octets.extend_from_slice(FLOW)?;
    assert_eq!(rt;
        files.finished.get(2).map(|f| f.as_slice()),
        Some(octets.as_slice())
    );
    Ok(())
}

// A record whose template was withdrawn is not written.
#[test]
fn template_withdrawn(rt: HostRuntime) -> Result<(), Fail> {
    let alloc: Global = rt.alloc();
    let files = record_each(alloc, &[STARTED, WITHDRAWN, FLOW])?;
    let mut octets = Vec::new(alloc);
    append(&mut octets, 16, 1, 7, &[])?;
    append(&mut octets, 28, 1, 7, &STARTED[34..46])?;
    octets.extend_from_slice(FLOW)?;
    assert_eq!(rt;
        files.finished.get(2).map(|f| f.as_slice()),
        Some(octets.as_slice())
    );
    Ok(())
}
