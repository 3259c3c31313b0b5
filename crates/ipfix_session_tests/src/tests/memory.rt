//! What is answered where memory runs out: `tests/gate/refusals` refuses each allocation of
//! these calls in turn. Before them nothing is allocated here.

ghost use Rattle.std.specs.Prelude.{◌<◌};

use super::runs::{Run, driven};
use ipfix_message::MessageFault;
use ipfix_session::{DomainReport, Session, SessionFault, VecSink};
use std::alloc::Global;
use std::process::Abort;
use std::test::*;

// Four messages: template 256 in domain 1, a record of it, the same record in domain 2, where that
// template is unknown, and another record in domain 1.
const TEXT: [u8; 172] = [
    // header: 40 octets, sequence 0, domain 1
    0x00, 0x0a, 0x00, 0x28, 0x65, 0x53, 0xf1, 0x00, 0x00, 0x00, 0x00, 0x00, 0x00, 0x00, 0x00, 0x01,
    // template set: template 256 with both times in 8 octets, the address and the count in 4
    0x00, 0x02, 0x00, 0x18, 0x01, 0x00, 0x00, 0x04, 0x00, 0x98, 0x00, 0x08, 0x00, 0x99, 0x00, 0x08,
    0x00, 0x08, 0x00, 0x04, 0x00, 0x01, 0x00, 0x04,
    // header: 44 octets, sequence 0, domain 1
    0x00, 0x0a, 0x00, 0x2c, 0x65, 0x53, 0xf1, 0x00, 0x00, 0x00, 0x00, 0x00, 0x00, 0x00, 0x00, 0x01,
    // data set of template 256: 1,000 ms to 2,000 ms, 192.0.2.1, 1,500 octets
    0x01, 0x00, 0x00, 0x1c, 0x00, 0x00, 0x00, 0x00, 0x00, 0x00, 0x03, 0xe8, 0x00, 0x00, 0x00, 0x00,
    0x00, 0x00, 0x07, 0xd0, 0xc0, 0x00, 0x02, 0x01, 0x00, 0x00, 0x05, 0xdc,
    // header: 44 octets, sequence 0, domain 2
    0x00, 0x0a, 0x00, 0x2c, 0x65, 0x53, 0xf1, 0x00, 0x00, 0x00, 0x00, 0x00, 0x00, 0x00, 0x00, 0x02,
    // the same data set
    0x01, 0x00, 0x00, 0x1c, 0x00, 0x00, 0x00, 0x00, 0x00, 0x00, 0x03, 0xe8, 0x00, 0x00, 0x00, 0x00,
    0x00, 0x00, 0x07, 0xd0, 0xc0, 0x00, 0x02, 0x01, 0x00, 0x00, 0x05, 0xdc,
    // header: 44 octets, sequence 1, domain 1
    0x00, 0x0a, 0x00, 0x2c, 0x65, 0x53, 0xf1, 0x00, 0x00, 0x00, 0x00, 0x01, 0x00, 0x00, 0x00, 0x01,
    // the same data set
    0x01, 0x00, 0x00, 0x1c, 0x00, 0x00, 0x00, 0x00, 0x00, 0x00, 0x03, 0xe8, 0x00, 0x00, 0x00, 0x00,
    0x00, 0x00, 0x07, 0xd0, 0xc0, 0x00, 0x02, 0x01, 0x00, 0x00, 0x05, 0xdc,
];

// The text that is fed in pieces of this size. After a fault each call has to answer it again, and to
// put nothing.
fn fed_on(rt: &impl Abort, alloc: Global, size: usize) -> Run
    requires { 0 < size }
{
    let mut sink = VecSink::new(alloc);
    let mut session = Session::new(alloc);
    let mut fault = None;
    for piece in TEXT.chunks(size) {
        let before = (sink.records.len(), sink.refused);
        let answer = session.feed(alloc, piece, &mut sink).err();
        if fault.is_some() {
            assert_eq!(rt; answer, fault);
            assert_eq!(rt; (sink.records.len(), sink.refused), before);
        }
        fault = answer;
    }
    let report = session.finish();
    assert_eq!(rt; report.fault, fault);
    Run { sink, report }
}

// That a run gave what the whole messages give that its report counts, and why it gave no more.
fn answer_of(rt: &impl Abort, run: &Run) -> &'static str {
    let report = &run.report;
    let counts = (report.messages, report.delivered);
    assert!(rt; [(0, 0), (1, 0), (2, 1), (3, 1), (4, 2)].contains(&counts));
    assert_eq!(rt; run.records().len() as u64, report.delivered);
    for record in run.records() {
        assert_eq!(rt; (record.domain, record.template), (1, 256));
    }
    let refused = report.fault == Some(SessionFault::SinkClosed);
    assert_eq!(rt; run.sink.refused, u64::from(refused));
    match report.fault {
        None => {
            assert_eq!(rt; (counts, report.unknown_sets), ((4, 2), 1));
            let domains = [of_domain(1, 2), of_domain(2, 0)];
            assert_eq!(rt; report.domains.as_slice(), domains.as_slice());
            "right"
        }
        Some(SessionFault::SinkClosed) => "SinkClosed",
        Some(fault) => {
            let out_of_memory = SessionFault::Message(MessageFault::OutOfMemory);
            assert_eq!(rt; fault, out_of_memory);
            "OutOfMemory"
        }
    }
}

// A domain of which nothing was lost.
fn of_domain(domain: u32, count: u64) -> DomainReport {
    DomainReport {
        domain,
        count,
        lost: 0,
        backward: 0,
    }
}

#[test]
fn feeding_survives_refused_memory(rt: HostRuntime) {
    for size in [172, 7] {
        let run = fed_on(&rt, rt.alloc(), size);
        let answer = answer_of(&rt, &run);
        let _ = eprintln!(rt; "feed: {answer}");
    }
}

#[test]
fn driving_survives_refused_memory(rt: HostRuntime) {
    let run = driven(rt.alloc(), &TEXT);
    let answer = answer_of(&rt, &run);
    let _ = eprintln!(rt; "drive: {answer}");
}
