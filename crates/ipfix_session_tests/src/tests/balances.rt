//! The balances of domains, and where a session stopped. Each number was counted by hand.

use ipfix_message::PassedOver;
use ipfix_session::{
    DomainBalance, DomainReport, FromReader, FullReport, MessagePlace, READ_LIMIT, Session,
    SessionLimits, VecSink, drive, drive_in_full,
};
use std::alloc::Global;
use std::test::*;
use worked_examples::{header, text_of};

// A data set of 8 octets with an id that no template has.
const UNKNOWN_SET: [u8; 8] = [0x01, 0x2c, 0, 8, 0, 0, 0, 0];

// A template set of 8 octets that withdraws template 256.
const WITHDRAWAL: [u8; 8] = [0, 2, 0, 8, 1, 0, 0, 0];

// A set of 8 octets that is skipped.
const SKIPPED_SET: [u8; 8] = [0, 1, 0, 8, 0, 0, 0, 0];

// The full report of these parts of messages, read from a source.
fn full_report(alloc: Global, parts: &[&[u8]]) -> Result<FullReport, Fail> {
    let text = text_of(alloc, parts)?;
    let mut sink = VecSink::new(alloc);
    let mut source = FromReader::new(text.as_slice());
    let limits = SessionLimits {
        reads: READ_LIMIT,
        templates: None,
    };
    Ok(drive_in_full(alloc, &mut source, &mut sink, limits))
}

// A balance, by its domain, its skipped sets, unknown sets and ignored withdrawals, and its gaps.
fn balance(domain: u32, passed_over: [u64; 3], unaccounted: u64) -> DomainBalance {
    let [skipped_sets, unknown_sets, ignored_withdrawals] = passed_over;
    DomainBalance {
        domain,
        passed_over: PassedOver {
            skipped_sets,
            unknown_sets,
            ignored_withdrawals,
        },
        unaccounted,
        late: 0,
    }
}

// The report of domain 1, which has no records, by those that were lost.
fn report(lost: u64) -> DomainReport {
    DomainReport {
        domain: 1,
        count: 0,
        lost,
        backward: 0,
    }
}

#[test]
fn a_gap_after_an_unknown_set_is_unaccounted(rt: HostRuntime) -> Result<(), Fail> {
    // Sequence numbers 0, 0 with an unknown set, 7 and 9, without a record: 7 is unaccounted for, 2 lost.
    let full = full_report(
        rt.alloc(),
        &[
            &header(16, 0, 1),
            &header(24, 0, 1),
            &UNKNOWN_SET,
            &header(16, 7, 1),
            &header(16, 9, 1),
        ],
    )?;
    assert_eq!(rt;
        full.balances.as_slice(),
        [balance(1, [0, 1, 0], 7)].as_slice()
    );
    assert_eq!(rt; full.report.domains.as_slice(), [report(2)].as_slice());
    Ok(())
}

#[test]
fn a_step_backward_after_an_unknown_set_is_late(rt: HostRuntime) -> Result<(), Fail> {
    // Half of all sequence numbers and more ahead is a step backward (RFC 7011, section 3.1): 5 - 1, 4 + 2^31.
    let steps = [
        (4, 0, 1),
        (2_147_483_652, 2_147_483_647, 0),
        (2_147_483_653, 0, 1),
    ];
    for (sequence, unaccounted, late) in steps {
        let parts: [&[u8]; 3] = [&header(24, 5, 1), &UNKNOWN_SET, &header(16, sequence, 1)];
        let full = full_report(rt.alloc(), &parts)?;
        let mut due = balance(1, [0, 1, 0], unaccounted);
        due.late = late;
        assert_eq!(rt; full.balances.as_slice(), [due].as_slice());
        assert_eq!(rt; full.report.domains.as_slice(), [report(0)].as_slice());
    }
    Ok(())
}

#[test]
fn each_domain_has_its_balance(rt: HostRuntime) -> Result<(), Fail> {
    let full = full_report(
        rt.alloc(),
        &[
            &header(24, 0, 2),
            &SKIPPED_SET,
            &header(24, 0, 1),
            &UNKNOWN_SET,
            &header(24, 3, 2),
            &WITHDRAWAL,
            &header(24, 4, 1),
            &UNKNOWN_SET,
        ],
    )?;
    let due = [balance(2, [1, 0, 1], 0), balance(1, [0, 2, 0], 4)];
    assert_eq!(rt; full.balances.as_slice(), due.as_slice());
    Ok(())
}

#[test]
fn tells_the_place_of_a_malformed_message(rt: HostRuntime) -> Result<(), Fail> {
    // The third message has version 9.
    let mut bad = header(16, 0, 1);
    bad[1] = 9;
    let parts: [&[u8]; 4] = [&header(16, 0, 1), &header(24, 0, 1), &UNKNOWN_SET, &bad];
    let full = full_report(rt.alloc(), &parts)?;
    assert_eq!(rt;
        full.report.fault.map(|fault| fault.name()),
        Some("Version")
    );
    assert_eq!(rt;
        full.stopped_at,
        MessagePlace {
            message: 3,
            octet: 40
        }
    );
    Ok(())
}

#[test]
fn tells_the_place_of_a_cut_message(rt: HostRuntime) -> Result<(), Fail> {
    let parts: [&[u8]; 2] = [&header(16, 0, 1), &header(24, 0, 1)];
    let full = full_report(rt.alloc(), &parts)?;
    assert_eq!(rt;
        full.report.fault.map(|fault| fault.name()),
        Some("Truncated")
    );
    assert_eq!(rt;
        full.stopped_at,
        MessagePlace {
            message: 2,
            octet: 16
        }
    );
    Ok(())
}

#[test]
fn feeding_reports_as_driving_does(rt: HostRuntime) -> Result<(), Fail> {
    let text = text_of(
        rt.alloc(),
        &[&header(24, 0, 1), &UNKNOWN_SET, &header(16, 7, 1)],
    )?;
    let mut sink = VecSink::new(rt.alloc());
    let mut session = Session::new(rt.alloc());
    for piece in text.chunks(7) {
        session.feed(rt.alloc(), piece, &mut sink)?;
    }
    let full = session.finish_in_full();
    assert_eq!(rt;
        full.balances.as_slice(),
        [balance(1, [0, 1, 0], 7)].as_slice()
    );
    assert_eq!(rt;
        full.stopped_at,
        MessagePlace {
            message: 3,
            octet: 40
        }
    );
    let mut source = FromReader::new(text.as_slice());
    let report = drive(rt.alloc(), &mut source, &mut sink, READ_LIMIT);
    assert_eq!(rt; report, full.report);
    Ok(())
}
