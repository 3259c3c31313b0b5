//! Periods, their files and their tables, with values worked out by `date -u` and by hand.

use recording_names::period_of;
use recording_periods::{
    PeriodRule, PeriodState, TableState, finished_files, may_remove, period_state, read_period_at,
    table_state,
};
use std::alloc::AllocError;
use std::test::Fail;

const RULE: PeriodRule = PeriodRule {
    every: 300,
    grace: 10,
};

#[test]
fn folders_are_read_back(rt: HostRuntime) {
    for (day, time, begins) in [
        ("1970-01-01", "000000", 0),
        ("2000-02-29", "000000", 951_782_400),
        ("2026-11-25", "133500", 1_795_613_700),
        ("9999-12-31", "235959", 253_402_300_799),
    ] {
        let period = read_period_at(day, time);
        assert!(rt;
            matches!(period, Some(found) if found.begins == begins),
            "{day}/{time}"
        );
    }
    for (day, time) in [
        ("1969-12-31", "235959"),
        ("2026-02-29", "000000"),
        ("2026-1-25", "133500"),
        ("2026-11-25", "240000"),
        ("2026-11-25", "133560"),
        ("2026-11-25", "13350"),
        ("2026-11-25", "133500.csv"),
        ("unfinished", ""),
        (".lock", ""),
    ] {
        assert!(rt; read_period_at(day, time).is_none(), "{day}/{time}");
    }
}

#[test]
fn a_period_waits_for_unfinished_files(rt: HostRuntime) {
    let period = period_of(1_795_613_700, 300);
    let mut unfinished = Vec::new(rt.alloc());
    assert!(rt;
        matches!(
            period_state(RULE, 1_795_614_009, &unfinished, period),
            PeriodState::NotOver
        )
    );
    assert!(rt;
        matches!(
            period_state(RULE, 1_795_614_010, &unfinished, period),
            PeriodState::Finished
        )
    );
    // a later period, and a name that tells none
    for name in ["1795614000-192.0.2.1-40012-7", "notes"] {
        let name = String::from_str(rt.alloc(), name);
        let Ok(name) = name else { return };
        let Ok(()) = unfinished.push(name) else {
            return
        };
    }
    assert!(rt;
        matches!(
            period_state(RULE, 1_795_614_010, &unfinished, period),
            PeriodState::Finished
        )
    );
    let Ok(name) = String::from_str(rt.alloc(), "1795613400-192.0.2.1-40012-3") else {
        return
    };
    let Ok(()) = unfinished.push(name) else {
        return
    };
    assert!(rt;
        matches!(period_state(RULE, 1_795_614_010, &unfinished, period),
        PeriodState::HeldUp(name) if name == "1795613400-192.0.2.1-40012-3")
    );
}

// These names, each as a text.
fn texts_of(rt: &HostRuntime, names: &[&str]) -> Result<Vec<String>, AllocError> {
    let mut texts = Vec::new(rt.alloc());
    for name in names {
        texts.push(String::from_str(rt.alloc(), *name)?)?;
    }
    Ok(texts)
}

#[test]
fn files_are_sorted_and_others_passed_over(rt: HostRuntime) {
    let names = [
        "192.0.2.1-40012-7.ipfix",
        "192.0.2.1-40012-7.ipfix.part",
        "192.0.2.1-40012-10.2.ipfix",
    ];
    let Ok(names) = texts_of(&rt, &names) else {
        return;
    };
    let Ok(files) = finished_files(rt.alloc(), names) else {
        return;
    };
    assert!(rt; files.len() == 2);
    assert!(rt;
        matches!(files.first(), Some(name) if name.as_str() == "192.0.2.1-40012-10.2.ipfix")
    );
}

#[test]
fn a_late_file_makes_a_table_due(rt: HostRuntime) {
    let (Ok(files), Ok(one), Ok(both)) = (
        texts_of(&rt, &["a.ipfix", "b.ipfix"]),
        texts_of(&rt, &["old/a.ipfix"]),
        texts_of(&rt, &["old/a.ipfix", "b.ipfix"]),
    ) else {
        return;
    };
    assert!(rt; matches!(table_state(&files, None), TableState::Due));
    assert!(rt; matches!(table_state(&[], None), TableState::UpToDate));
    assert!(rt; matches!(table_state(&files, Some(&one)), TableState::Due));
    assert!(rt;
        matches!(
            table_state(&[], Some(&one)),
            TableState::Gone("old/a.ipfix")
        )
    );
    assert!(rt;
        matches!(
            table_state(&files, Some(&both)),
            TableState::Gone("b.ipfix")
        )
    );
}

const ONE: &str = "192.0.2.1-40012-7.ipfix";

const OTHER: &str = "192.0.2.2-40013-8.ipfix";

// A day after the period that begins at 2026-11-25 13:35:00 UTC.
const OLD: u64 = 1_795_700_100;

// Whether recordings of that period with these names may be removed, if they are kept for a day, and each plan has a receipt
// that names files of these names, or none.
fn may_go(
    rt: &HostRuntime,
    now: u64,
    unfinished: &[&str],
    names: &[&str],
    receipts: &[Option<&[&str]>],
) -> Result<bool, AllocError> {
    let mut named = Vec::new(rt.alloc());
    for receipt in receipts {
        named.push(match receipt {
            Some(names) => Some(paths_of(rt, *names)?),
            None => None,
        })?;
    }
    let unfinished = texts_of(rt, unfinished)?;
    let names = texts_of(rt, names)?;
    let period = period_of(1_795_613_700, 300);
    Ok(may_remove(RULE, 86_400, now, &unfinished, period, &names, &named))
}

// A path to each of these names.
fn paths_of(rt: &HostRuntime, names: &[&str]) -> Result<Vec<String>, AllocError> {
    let mut paths = Vec::new(rt.alloc());
    for name in names {
        paths.push(format!(in rt.alloc(); "recordings/2026-11-25/133500/{}", *name)?)?;
    }
    Ok(paths)
}

#[test]
fn recordings_go_after_a_day(rt: HostRuntime) -> Result<(), Fail> {
    let table: Option<&[&str]> = Some(&[ONE]);
    let found = [
        may_go(&rt, OLD, &[], &[ONE], &[table, table])?,
        may_go(&rt, OLD - 1, &[], &[ONE], &[table, table])?,
        may_go(&rt, 0, &[], &[ONE], &[table])?,
    ];
    assert_eq!(rt; found, [true, false, false]);
    let later = ["1795614000-192.0.2.1-40012-7", "notes"];
    let before = ["1795613400-192.0.2.1-40012-3"];
    let beside = [
        may_go(&rt, OLD, &later, &[ONE], &[table])?,
        may_go(&rt, OLD, &before, &[ONE], &[table])?,
    ];
    assert_eq!(rt; beside, [true, false]);
    Ok(())
}

#[test]
fn recordings_go_if_each_plan_has_their_table(rt: HostRuntime) -> Result<(), Fail> {
    let table: Option<&[&str]> = Some(&[ONE]);
    let both: Option<&[&str]> = Some(&[ONE, OTHER]);
    let found = [
        may_go(&rt, OLD, &[], &[ONE], &[])?,
        may_go(&rt, OLD, &[], &[ONE], &[table, None])?,
        may_go(&rt, OLD, &[], &[ONE], &[None, table])?,
        may_go(&rt, OLD, &[], &[ONE], &[both])?,
        may_go(&rt, OLD, &[], &[ONE, OTHER], &[both, table])?,
        may_go(&rt, OLD, &[], &[ONE, OTHER], &[both])?,
        may_go(&rt, OLD, &[], &[ONE, "notes"], &[table])?,
        may_go(&rt, OLD, &[], &[], &[None])?,
    ];
    assert_eq!(rt;
        found,
        [false, false, false, false, false, true, false, false]
    );
    Ok(())
}
