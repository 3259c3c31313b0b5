//! What the worked examples give, however they are cut.

use super::examples::{Example, are_same, examples};
use super::runs::{Run, assert_one_meaning, driven, fed, fed_parts, trickled};
use std::alloc::Global;
use std::process::Abort;
use std::test::*;
use worked_examples::text_of;

// That a run gave what an example says.
fn assert_gives(rt: &impl Abort, run: &Run, example: &Example) {
    let report = &run.report;
    let counts = [
        report.messages,
        report.delivered,
        report.skipped_sets,
        report.unknown_sets,
        report.ignored_withdrawals,
    ];
    assert_eq!(rt; counts, example.counts, "{}", example.name);
    assert_eq!(rt; run.fault(), example.fault, "{}", example.name);
    assert_eq!(rt; run.records().len() as u64, report.delivered);
    assert_eq!(rt; report.domains.len(), example.domains.len());
    for (domain, expected) in report.domains.iter().zip(example.domains) {
        let sums = (domain.domain, domain.count, domain.lost, domain.backward);
        assert_eq!(rt; sums, *expected, "{}", example.name);
    }
}

#[test]
fn worked_examples_give_their_records(rt: HostRuntime) -> Result<(), Fail> {
    let alloc: Global = rt.alloc();
    for example in examples() {
        let text = text_of(alloc, example.messages)?;
        let run = assert_one_meaning(&rt, alloc, &text);
        assert_gives(&rt, &run, &example);
        assert_same_in_pieces(&rt, alloc, &text, &run, &example);
        for read in [driven(alloc, &text), trickled(alloc, &text)?] {
            assert_gives(&rt, &read, &example);
            assert!(rt; are_same(run.records(), read.records()));
        }
    }
    Ok(())
}

// That a text gives the same in pieces.
fn assert_same_in_pieces(
    rt: &impl Abort,
    alloc: Global,
    text: &[u8],
    run: &Run,
    example: &Example,
) {
    for size in [7, 16, 17, 100] {
        let pieces = fed(alloc, text, size);
        assert_gives(rt, &pieces, example);
        assert!(rt; are_same(run.records(), pieces.records()));
        let parts = fed_parts(alloc, text, size);
        assert_gives(rt, &parts, example);
    }
}
