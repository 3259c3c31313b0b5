//! What is told of sessions in full, of what was opened and of what was not had, and which runs are spotless.

mod unnamed;

use element_registry::Elements;
use flow_table::{Missing, Tally};
use ipfix_dump::{DumpOptions, Form, dump_with};
use ipfix_session::{FromReader, FullReport, Source};
use report_sessions::*;
use report_writing::*;
use std::alloc::Global;
use std::io::{self, ErrorKind, Read};
use std::net::{Ipv4Addr, SocketAddr, SocketAddrV4};
use std::test::Fail;
use worked_examples::sequences::*;
use worked_examples::{header, text_of};

const PLAIN: Verbosity = Verbosity {
    verbose: false,
    strict: false,
};

const VERBOSE: Verbosity = Verbosity {
    verbose: true,
    strict: false,
};

const STRICT: Verbosity = Verbosity {
    verbose: false,
    strict: true,
};

// The full report of a session of these octets.
fn report_of(alloc: Global, text: &[u8]) -> Result<FullReport, Fail> {
    report_from(alloc, &mut FromReader::new(text))
}

// That of a session of this source.
fn report_from<S: Source>(alloc: Global, source: &mut S) -> Result<FullReport, Fail> {
    let mut out = Vec::new(alloc);
    let elements = Elements::built_in(alloc);
    let options = DumpOptions {
        form: Form::Text,
        elements: &elements,
        templates: None,
    };
    Ok(dump_with(alloc, &options, source, &mut out)?)
}

// Two sessions. In the first a data set comes before its template, and the third message is cut.
fn two_sessions(alloc: Global) -> Result<Vec<FullReport>, Fail> {
    let mut cut = text_of(alloc, &[ONE_BACK_AT_1])?;
    cut.extend_from_slice(&header(40, 4, 1))?;
    cut.extend_from_slice(&TWO_AT_0[16..])?;
    cut.extend_from_slice(&ONE_AT_5[..10])?;
    let mut reports = Vec::new(alloc);
    reports.push(report_of(alloc, &cut)?)?;
    reports.push(report_of(alloc, TWO_AT_0)?)?;
    Ok(reports)
}

fn origins() -> [Origin<'static>; 2] {
    let peer = SocketAddrV4::new(Ipv4Addr::new(192, 0, 2, 1), 4711);
    [
        Origin::File {
            name: "flows \x1b.ipfix",
            size: Some(74),
        },
        Origin::Peer(SocketAddr::V4(peer)),
    ]
}

#[test]
fn writes_sessions_in_full(rt: HostRuntime) -> Result<(), Fail> {
    let reports = two_sessions(rt.alloc())?;
    let elements = Elements::built_in(rt.alloc());
    let cases: [(Verbosity, &str); 3] = [
        (PLAIN, "collectd: session 1: fault 14 Truncated\n"),
        (
            STRICT,
            r#"collectd: session 1: fault 14 Truncated
collectd: session 1 "flows \x1b.ipfix": domain 1: unknown_sets 1 skipped_sets 0 ignored_withdrawals 0 unaccounted 3
"#,
        ),
        (
            VERBOSE,
            r#"collectd: session 1: fault 14 Truncated
collectd: session 1 "flows \x1b.ipfix": domain 1: unknown_sets 1 skipped_sets 0 ignored_withdrawals 0 unaccounted 3
collectd: session 1 "flows \x1b.ipfix": fault 14 Truncated: message 3 octet 64 unread 10
collectd: session 1 "flows \x1b.ipfix": ended: messages 2 octets 64 records 2
collectd: session 2 192.0.2.1:4711: ended: messages 1 octets 40 records 2
"#,
        ),
    ];
    let sources: [FromReader<&[u8]>; 0] = [];
    for (verbosity, wanted) in cases {
        let mut err = Vec::new(rt.alloc());
        write_told_reports(
            verbosity,
            &elements,
            &origins(),
            &sources,
            reports.as_slice(),
            &mut err,
        )?;
        assert_eq!(rt; err.as_slice(), wanted.as_bytes());
    }
    Ok(())
}

// A reader whose reads all fail so, or which shows its end at once.
#[derive(Drop)]
struct Failing(Option<ErrorKind>);

impl Read for Failing {
    fn read(&mut self, _: &mut [u8]) -> io::Result<usize> {
        match self.0 {
            Some(kind) => Err(io::Error::from(kind)),
            None => Ok(0),
        }
    }
}

const REASONS: &str = r#"collectd: session 1: fault 15 ReadFailed
collectd: session 1 "flows \x1b.ipfix": fault 15 ReadFailed: message 1 octet 0 unread 74
collectd: session 1 "flows \x1b.ipfix": fault 15 ReadFailed: nothing came in time
collectd: session 1 "flows \x1b.ipfix": ended: messages 0 octets 0 records 0
collectd: session 2 192.0.2.1:4711: ended: messages 0 octets 0 records 0
collectd: session 3: fault 15 ReadFailed
collectd: session 3: fault 15 ReadFailed: message 1 octet 0
collectd: session 3: fault 15 ReadFailed: the connection was reset
collectd: session 3: ended: messages 0 octets 0 records 0
"#;

#[test]
fn tells_why_each_session_could_not_be_read_on(rt: HostRuntime) -> Result<(), Fail> {
    let elements = Elements::built_in(rt.alloc());
    let (mut sources, mut reports) = (Vec::new(rt.alloc()), Vec::new(rt.alloc()));
    let silent = Some(ErrorKind::WouldBlock);
    for failure in [silent, None, Some(ErrorKind::ConnectionReset)] {
        let mut source = FromReader::new(Failing(failure));
        reports.push(report_from(rt.alloc(), &mut source)?)?;
        sources.push(source)?;
    }
    for (verbosity, wanted) in [
        (
            PLAIN,
            "collectd: session 1: fault 15 ReadFailed\ncollectd: session 3: fault 15 ReadFailed\n",
        ),
        (VERBOSE, REASONS),
    ] {
        let mut err = Vec::new(rt.alloc());
        write_told_reports(
            verbosity,
            &elements,
            &origins(),
            sources.as_slice(),
            reports.as_slice(),
            &mut err,
        )?;
        assert_eq!(rt; err.as_slice(), wanted.as_bytes());
    }
    Ok(())
}

#[test]
fn writes_what_was_opened(rt: HostRuntime) -> Result<(), Fail> {
    let mut err = Vec::new(rt.alloc());
    for verbosity in [PLAIN, VERBOSE] {
        write_listening(verbosity, "127.0.0.1:4739", 2, &mut err)?;
        for origin in &origins() {
            write_opened(verbosity, 1, origin, &mut err)?;
        }
        write_opened(verbosity, 2, &Origin::Unknown, &mut err)?;
    }
    let wanted = r#"collectd: listening: 127.0.0.1:4739: connections 2
collectd: session 1 "flows \x1b.ipfix": opened
collectd: session 1 192.0.2.1:4711: accepted
collectd: session 2: opened
"#;
    assert_eq!(rt; err.as_slice(), wanted.as_bytes());
    Ok(())
}

#[test]
fn writes_what_was_not_had(rt: HostRuntime) -> Result<(), Fail> {
    let mut err = Vec::new(rt.alloc());
    let missing = Reason::of(&io::Error::from(ErrorKind::NotFound));
    let silent = Reason::of(&io::Error::from(ErrorKind::WouldBlock));
    write_not_had_because(PLAIN, "open", "no.ipfix", missing, &mut err)?;
    write_not_had_because(VERBOSE, "open", "no.ipfix", missing, &mut err)?;
    write_not_had_because(VERBOSE, "listen", "127.0.0.1:1", silent, &mut err)?;
    let wanted = "collectd: open: no.ipfix
collectd: open: no.ipfix: no such file
collectd: listen: 127.0.0.1:1: nothing came in time
";
    assert_eq!(rt; err.as_slice(), wanted.as_bytes());
    Ok(())
}

#[test]
fn tells_spotless_runs(rt: HostRuntime) -> Result<(), Fail> {
    let reports = two_sessions(rt.alloc())?;
    let untimed = Tally {
        untimed: 1,
        ..Tally::EMPTY
    };
    let options = Tally {
        options: 3,
        used: 2,
        ..Tally::EMPTY
    };
    let counterless = Missing {
        counters: [0, 1, 0, 0],
        ..Missing::NONE
    };
    assert!(rt; !are_spotless(reports.as_slice()));
    assert!(rt; are_spotless(&reports[1..]));
    assert!(rt; is_spotless(&reports[1..], &options, &Missing::NONE));
    assert!(rt; !is_spotless(&reports[1..], &untimed, &Missing::NONE));
    assert!(rt; !is_spotless(&reports[1..], &options, &counterless));
    Ok(())
}
