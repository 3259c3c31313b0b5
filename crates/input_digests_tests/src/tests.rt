//! The digests of sessions: of texts without a fault, with one, cut short, and longer than what is held; the
//! digests by `sha256sum`.

ghost use Rattle.std.specs.Prelude.{◌≡◌};

use input_digests::{HashedSource, Start};
use ipfix_session::{
    FullReport, ScriptSource, SessionFault, SessionLimits, Source, VecSink, drive_in_full,
};
use std::alloc::{AllocError, Global};
use std::marker::Brand;
use std::test::*;
use worked_examples::faults::VERSION_9;
use worked_examples::flows::ONE_FLOW;
use worked_examples::text_of;

// `sha256sum examples/one-flow.ipfix`
const OF_ONE_FLOW: [u8; 32] = [
    0x13, 0x56, 0xb4, 0x6b, 0xbc, 0xc0, 0x1f, 0xf3, 0xee, 0x9f, 0xc5, 0xf8, 0xb3, 0x69, 0x1f, 0xc5,
    0x78, 0x1f, 0x8e, 0xdf, 0x02, 0x05, 0x47, 0x05, 0x8a, 0xd5, 0xba, 0x69, 0xe6, 0xfa, 0x91, 0xd4,
];

// of that file 5,000 times
const OF_5000: [u8; 32] = [
    0x07, 0x43, 0x14, 0x6e, 0x53, 0xbc, 0x77, 0xbf, 0x07, 0x41, 0xcb, 0x56, 0x89, 0x15, 0x86, 0x72,
    0xd0, 0x70, 0xef, 0xe4, 0x80, 0xd0, 0x23, 0x90, 0xb1, 0x84, 0x4e, 0xae, 0x4d, 0xdc, 0x3b, 0xee,
];

// of nothing
const OF_NOTHING: [u8; 32] = [
    0xe3, 0xb0, 0xc4, 0x42, 0x98, 0xfc, 0x1c, 0x14, 0x9a, 0xfb, 0xf4, 0xc8, 0x99, 0x6f, 0xb9, 0x24,
    0x27, 0xae, 0x41, 0xe4, 0x64, 0x9b, 0x93, 0x4c, 0xa4, 0x95, 0x99, 0x1b, 0x78, 0x52, 0xb8, 0x55,
];

// A session that was driven, and the digest of its messages that count.
#[derive(Drop)]
struct HashedSession {
    full: FullReport,
    sha256: [u8; 32],
}

// Drives a source while what it gives is hashed.
fn drive_hashed<S: Source + Drop>(alloc: Global, source: S) -> Result<HashedSession, AllocError> {
    drive_from::<S, Brand>(alloc, source)
}

fn drive_from<S: Source + Drop, T: Start>(
    alloc: Global,
    source: S,
) -> Result<HashedSession, AllocError>
    requires { (S.seen source).text ≡ T.texts 0 }
{
    let mut hashed: HashedSource<S, T> = HashedSource::new(alloc, source, 0);
    let limits = SessionLimits {
        reads: 1000,
        templates: None,
    };
    let full = drive_in_full(alloc, &mut hashed, &mut VecSink::new(alloc), limits);
    let sha256 = hashed.finish(&full)?.sha256;
    Ok(HashedSession { full, sha256 })
}

#[test]
fn hashes_the_messages_that_count(rt: HostRuntime) -> Result<(), Fail> {
    let alloc: Global = rt.alloc();
    let truncated = Some(SessionFault::Truncated);
    let version = Some(SessionFault::Message(ipfix_message::MessageFault::Version));
    for (messages, piece, fault, octets, sha256) in [
        (&[ONE_FLOW, &[]], 65536, None, 68, OF_ONE_FLOW),
        (&[ONE_FLOW, &[]], 1, None, 68, OF_ONE_FLOW),
        (&[ONE_FLOW, VERSION_9], 65536, version, 68, OF_ONE_FLOW),
        (&[ONE_FLOW, VERSION_9], 7, version, 68, OF_ONE_FLOW),
        (&[ONE_FLOW, &ONE_FLOW[..67]], 10, truncated, 68, OF_ONE_FLOW),
        (&[VERSION_9, ONE_FLOW], 10, version, 0, OF_NOTHING),
        (&[&[], &[]], 10, None, 0, OF_NOTHING),
    ] {
        let source = ScriptSource::new(text_of(alloc, messages)?, piece, None, None);
        let session = drive_hashed(alloc, source)?;
        assert_eq!(rt; session.full.report.fault, fault);
        assert_eq!(rt; session.full.stopped_at.octet, octets);
        assert_eq!(rt; session.sha256, sha256);
    }
    Ok(())
}

// 340,000 octets are more than is held of a text. It ends after them, or a message is cut, a read fails or a message
// has a fault.
#[test]
fn hashes_a_long_text(rt: HostRuntime) -> Result<(), Fail> {
    let alloc: Global = rt.alloc();
    let truncated = Some(SessionFault::Truncated);
    let failed = Some(SessionFault::ReadFailed);
    let version = Some(SessionFault::Message(ipfix_message::MessageFault::Version));
    for (piece, end, fail_at, fault) in [
        (65536, &ONE_FLOW[..0], None, None),
        (1400, &ONE_FLOW[..0], None, None),
        (65536, &ONE_FLOW[..40], None, truncated),
        (1400, &ONE_FLOW[..40], None, truncated),
        (65536, &ONE_FLOW[..0], Some(340000), failed),
        (1400, &ONE_FLOW[..40], Some(340030), failed),
        (65536, VERSION_9, None, version),
        (1400, VERSION_9, None, version),
    ] {
        let mut text = Vec::new(alloc);
        for _ in 0..5000 {
            text.extend_from_slice(ONE_FLOW)?;
        }
        text.extend_from_slice(end)?;
        let source = ScriptSource::new(text, piece, Some(3), fail_at);
        let session = drive_hashed(alloc, source)?;
        assert_eq!(rt; session.full.report.fault, fault);
        assert_eq!(rt; session.full.stopped_at.octet, 340000);
        assert_eq!(rt; session.sha256, OF_5000);
    }
    Ok(())
}

#[test]
fn a_read_that_fails_at_once_leaves_nothing(rt: HostRuntime) -> Result<(), Fail> {
    let alloc: Global = rt.alloc();
    let source = ScriptSource::new(text_of(alloc, &[ONE_FLOW])?, 10, None, Some(0));
    let session = drive_hashed(alloc, source)?;
    assert_eq!(rt; session.full.report.fault, Some(SessionFault::ReadFailed));
    assert_eq!(rt; session.sha256, OF_NOTHING);
    Ok(())
}
