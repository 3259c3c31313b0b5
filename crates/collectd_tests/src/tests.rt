//! What a dump writes, of sources and to writers that fail, and over a live connection; and how many
//! messages are counted.

ghost use Rattle.std.specs.Prelude.{◌<◌};

use collectd::*;
use ipfix_session::{DomainReport, FromReader, ScriptSource, SessionFault, SessionReport};
use std::alloc::Global;
use std::io::{self, Write};
use std::net::{TcpListener, TcpStream};
use std::sync::Arc;
use std::sync::atomic::{AtomicBool, Ordering};
use std::test::Fail;
use std::thread;
use worked_examples::faults::{MESSAGE_LENGTH_15, MESSAGE_WITHOUT_SETS, VERSION_9};
use worked_examples::flows::ONE_FLOW;
use worked_examples::sequences::*;
use worked_examples::{FailingWriter, header, text_of};

const LINE: &str =
    "d=1 t=256 x=1700000000 s=0 flowStartMilliseconds=1000 flowEndMilliseconds=2000 sourceIPv4Address=192.0.2.1 octetDeltaCount=1500\n";

const WRAP: &[&[u8]] = &[TWO_BEFORE_THE_WRAP, ONE_AFTER_THE_WRAP];

const WRAP_LINES: &str = "d=1 t=256 x=1700000000 s=0 octetDeltaCount=1
d=1 t=256 x=1700000000 s=0 octetDeltaCount=2
d=1 t=256 x=1700000000 s=0 octetDeltaCount=3
";

const GAP: &[&[u8]] = &[TWO_AT_0, ONE_AT_5, ONE_BACK_AT_1];

const GAP_LINES: &str = "d=1 t=256 x=1700000000 s=0 octetDeltaCount=1
d=1 t=256 x=1700000000 s=0 octetDeltaCount=2
d=1 t=256 x=1700000000 s=0 octetDeltaCount=3
d=1 t=256 x=1700000000 s=0 octetDeltaCount=4
";

#[test]
fn dumps_whole_inputs(rt: HostRuntime) -> Result<(), Fail> {
    let cases: [(&[&[u8]], &str, &str); 4] = [
        (&[], "", ""),
        (&[ONE_FLOW], LINE, ""),
        (WRAP, WRAP_LINES, ""),
        (
            GAP,
            GAP_LINES,
            "collectd: session 1: domain 1: lost 3 backward 1\n",
        ),
    ];
    for (messages, lines, texts) in cases {
        let text = text_of(rt.alloc(), messages)?;
        let mut source = FromReader::new(text.as_slice());
        let mut out = Vec::new(rt.alloc());
        let mut err = Vec::new(rt.alloc());
        assert_eq!(rt; run_dump(rt.alloc(), &mut source, &mut out, &mut err), 0);
        assert_eq!(rt; out.as_slice(), lines.as_bytes());
        assert_eq!(rt; err.as_slice(), texts.as_bytes());
    }
    Ok(())
}

#[test]
fn dumps_what_came_before_a_failing_read(rt: HostRuntime) -> Result<(), Fail> {
    for (piece, interrupt_at) in [(1, None), (7, Some(3)), (100, Some(1))] {
        let text = text_of(rt.alloc(), &[ONE_FLOW, ONE_FLOW])?;
        let mut source = ScriptSource::new(text, piece, interrupt_at, Some(80));
        let mut out = Vec::new(rt.alloc());
        let mut err = Vec::new(rt.alloc());
        assert_eq!(rt; run_dump(rt.alloc(), &mut source, &mut out, &mut err), 1);
        assert_eq!(rt; out.as_slice(), LINE.as_bytes());
        assert_eq!(rt;
            err.as_slice(),
            b"collectd: session 1: fault 15 ReadFailed\n".as_slice()
        );
    }
    Ok(())
}

/// Pieces of lines, and then the flush.
#[test]
fn each_write_fails(rt: HostRuntime) -> Result<(), Fail> {
    let cases: [(&[&[u8]], &str); 2] = [(&[], ""), (GAP, GAP_LINES)];
    for (messages, lines) in cases {
        let text = text_of(rt.alloc(), messages)?;
        let mut flush_fails = false;
        for calls in 0..100 {
            let mut source = FromReader::new(text.as_slice());
            let mut out = FailingWriter::new(rt.alloc(), 30, calls);
            let mut err = Vec::new(rt.alloc());
            let status = run_dump(rt.alloc(), &mut source, &mut out, &mut err);
            assert!(rt; lines.as_bytes().starts_with(out.taken.as_slice()));
            let is_whole = out.taken.len() == lines.len();
            if status == 0 {
                assert!(rt; is_whole && flush_fails);
                break;
            }
            assert_eq!(rt; status, 3);
            assert_eq!(rt;
                err.as_slice(),
                b"collectd: dump: fault 2 WriteFailed\n".as_slice()
            );
            flush_fails = is_whole;
        }
        assert!(rt; flush_fails);
    }
    Ok(())
}

// A report of a session with these domains, given as their numbers, lost and backward.
fn report(
    alloc: Global,
    domains: &[(u32, u64, u64)],
    fault: Option<SessionFault>,
) -> Result<SessionReport, Fail> {
    let mut reports = Vec::new(alloc);
    for &(domain, lost, backward) in domains {
        reports.push(DomainReport {
            domain,
            count: 1,
            lost,
            backward,
        })?;
    }
    Ok(SessionReport {
        messages: 0,
        delivered: 0,
        skipped_sets: 0,
        unknown_sets: 0,
        ignored_withdrawals: 0,
        domains: reports,
        fault,
    })
}

#[test]
fn writes_reports_of_sessions(rt: HostRuntime) -> Result<(), Fail> {
    let mut reports = Vec::new(rt.alloc());
    reports.push(report(rt.alloc(), &[(1, 0, 0)], None)?)?;
    let domains = [(7, 3, 0), (4294967295, 0, 0), (2, 0, u64::MAX)];
    let fault = Some(SessionFault::Truncated);
    reports.push(report(rt.alloc(), &domains, fault)?)?;
    reports.push(report(rt.alloc(), &[], Some(SessionFault::ReadFailed))?)?;
    let mut out = Vec::new(rt.alloc());
    write_reports(&reports, &mut out)?;
    let wanted = "collectd: session 2: domain 7: lost 3 backward 0
collectd: session 2: domain 2: lost 0 backward 18446744073709551615
collectd: session 2: fault 14 Truncated
collectd: session 3: fault 15 ReadFailed
";
    assert_eq!(rt; out.as_slice(), wanted.as_bytes());
    Ok(())
}

#[test]
fn faults_have_numbers_and_names(rt: HostRuntime) {
    assert_eq!(rt; DumpFault::OutOfMemory.number(), 1);
    assert_eq!(rt; DumpFault::OutOfMemory.name(), "OutOfMemory");
    assert_eq!(rt; DumpFault::WriteFailed.number(), 2);
    assert_eq!(rt; DumpFault::WriteFailed.name(), "WriteFailed");
}

// Keeps what is written, and notes when a line is whole.
#[derive(Drop)]
struct Noting {
    text: Vec<u8>,
    line_came: Arc<AtomicBool, Global>,
}

impl Write for Noting {
    fn write(&mut self, octets: &[u8]) -> io::Result<usize> {
        self.text.extend_from_slice(octets)?;
        if octets.contains(&b'\n') {
            self.line_came.store(true, Ordering::SeqCst);
        }
        Ok(octets.len())
    }

    fn flush(&mut self) -> io::Result<()> {
        Ok(())
    }
}

// Sends one flow, and closes the connection once its line has come, or gives up. Whether it came.
fn export(connection: TcpStream, line_came: &AtomicBool) -> bool {
    let mut connection = connection;
    if connection.write_all(ONE_FLOW).is_err() {
        return false;
    }
    for _ in 0..1_000_000 {
        if line_came.load(Ordering::SeqCst) {
            return true;
        }
        thread::yield_now();
    }
    false
}

#[test]
fn dumps_a_message_while_the_connection_lives(rt: HostRuntime) -> Result<(), Fail> {
    let listener = TcpListener::bind(&rt, "127.0.0.1:0")?;
    let exporter = TcpStream::connect(&rt, listener.local_addr()?)?;
    let (collector, _) = listener.accept()?;
    let line_came = Arc::new(rt.alloc(), AtomicBool::new(false))?;
    let theirs = Arc::try_clone(&line_came)?;
    let Ok(thread) = thread::spawn(&rt, move || export(exporter, &theirs)) else {
        panic!(rt; "no thread");
    };
    let mut source = FromReader::new(collector);
    let mut out = Noting {
        text: Vec::new(rt.alloc()),
        line_came,
    };
    let report = dump(rt.alloc(), &mut source, &mut out);
    assert!(rt;
        thread.join(&rt),
        "the line came while the connection was open"
    );
    assert!(rt;
        matches!(
            &report,
            Ok(SessionReport {
                messages: 1,
                delivered: 1,
                fault: None,
                ..
            })
        )
    );
    assert_eq!(rt; out.text.as_slice(), LINE.as_bytes());
    Ok(())
}

// How many messages a text has, read in pieces of this size.
fn count_in_pieces(text: &[u8], size: usize) -> u64
    requires { 0 < size }
{
    let mut counter = MessageCounter::new();
    for piece in text.chunks(size) {
        counter.read(piece);
    }
    counter.count()
}

/// However they are cut: each header here is cut after each of its octets.
#[test]
fn counts_messages_in_pieces(rt: HostRuntime) -> Result<(), Fail> {
    let cases: [(&[&[u8]], u64); 7] = [
        (&[], 0),
        (&[ONE_FLOW], 1),
        (&[ONE_FLOW, ONE_FLOW], 2),
        (&[MESSAGE_WITHOUT_SETS, ONE_FLOW, MESSAGE_WITHOUT_SETS], 3),
        (&[MESSAGE_LENGTH_15, ONE_FLOW], 0),
        (&[ONE_FLOW, MESSAGE_LENGTH_15, ONE_FLOW], 1),
        (&[ONE_FLOW, VERSION_9, ONE_FLOW], 1),
    ];
    for (messages, count) in cases {
        let text = text_of(rt.alloc(), messages)?;
        for size in 1..200 {
            assert_eq!(rt; count_in_pieces(text.as_slice(), size), count);
        }
    }
    Ok(())
}

/// An octet at a time: a message counts with its last octet.
#[test]
fn counts_messages_that_come_by_octets(rt: HostRuntime) {
    let mut counter = MessageCounter::new();
    for round in 0..3 {
        for octet in &ONE_FLOW[..67] {
            counter.read(&[*octet]);
            assert_eq!(rt; counter.count(), round);
        }
        counter.read(&ONE_FLOW[67..]);
        assert_eq!(rt; counter.count(), round + 1);
    }
}

#[test]
fn counts_the_longest_message(rt: HostRuntime) {
    let mut counter = MessageCounter::new();
    counter.read(&header(65535, 0, 1));
    for _ in 0..65518 {
        counter.read(&[0]);
    }
    assert_eq!(rt; counter.count(), 0);
    counter.read(&[0, 0]);
    assert_eq!(rt; counter.count(), 1);
}
