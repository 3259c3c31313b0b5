//! Rounds over a folder of recordings on the disk.

use command_collect::{CollectJob, Engine, MadeWith};
use element_registry::Elements;
use flow_export::Format;
use flow_plan::read_plan;
use flow_table::Plan;
use input_sources::{FileInTurn, FilesInTurn};
use ipfix_session::FromReader;
use output_tables::Output;
use period_collect::{PeriodJob, TableMaker};
use period_tables::{Desk, Round, Rounds, Work, take_periods, worse_of};
use recording_folder::{Folder, open_folder};
use recording_periods::PeriodRule;
use report_writing::Status;
use std::alloc::{AllocError, Global};
use std::fs;
use std::marker::PhantomData;
use std::rt::Clock;
use std::sync::Wait;
use std::test::Fail;
use std::thread::Threads;
use tables_folder::{PlanFault, PlanTables, RecordingsFolder, TablesOf, days_in, periods_in};
use worked_examples::flows::{NEXT_FLOW, ONE_FLOW};
use worked_examples::text_of;

const BY_SOURCE: &str = "interval_ms = 60000
method = \"start\"
keys = [\"sourceIPv4Address\"]
counters = [\"octetDeltaCount\"]
";

const CSV: Output = Output {
    format: Format::Csv,
    time: 0,
};

const RULE: PeriodRule = PeriodRule {
    every: 300,
    grace: 10,
};

// The end of the period that begins at 2026-11-25 13:35:00 UTC, with its grace.
const OVER: u64 = 1_795_614_010;

const UNFINISHED: &str = "recordings/unfinished/1795613400-192.0.2.1-40012-3";

const FIRST: &str = "recordings/2026-11-25/133500/192.0.2.1-40012-7.ipfix";

const LATE: &str = "recordings/2026-11-25/133500/192.0.2.2-40013-8.ipfix";

const TABLE: &str = "tables/source/2026-11-25/133500.csv";

type DiskWork<'a> = Work<
    RecordingsFolder<'a>,
    TableMaker<'a, FromReader<FileInTurn<'a>>, FilesInTurn<'a>, Vec<u8>>,
    PlanTables<'a>,
    Vec<u8>,
    Vec<u8>,
>;

// What makes the tables of this job.
fn work_of<'a>(rt: &'a HostRuntime, job: PeriodJob<'a>, tables: PlanTables<'a>) -> DiskWork<'a> {
    let alloc: Global = rt.alloc();
    Work {
        desk: Desk {
            folder: RecordingsFolder::new(rt, job.recordings),
            maker: TableMaker {
                alloc,
                opening: FilesInTurn::new(rt, alloc),
                sources: PhantomData,
                job,
                err: Vec::new(alloc),
            },
            tables,
        },
        out: Vec::new(alloc),
        err: Vec::new(alloc),
        rounds: Rounds::new(alloc),
    }
}

// Takes all periods at this second. The status goes after the lines.
fn take_all<R: Clock + Threads + Wait + Sync>(
    threads: &R,
    rt: &HostRuntime,
    work: &mut DiskWork,
    now: u64,
) -> Result<(), Fail> {
    work.rounds.begin(now);
    let round = Round {
        alloc: rt.alloc(),
        from: "recordings",
        plan: None,
        rule: RULE,
        now,
        tells_waiting: work.rounds.tells_waiting(),
    };
    let days = days_in(rt, "recordings")?;
    let mut status = Status::Well;
    let first = work.rounds.first_day(days.len());
    for day in &days[first..] {
        let periods = periods_in(rt, "recordings", day.as_str())?;
        status = worse_of(status, take_periods(threads, work, round, &periods));
    }
    work.err.push(status.number().saturating_add(b'0'))?;
    work.err.push(b'\n')?;
    Ok(())
}

// The lines so far, the paths of tables, and the table's text.
fn texts_of(rt: &HostRuntime, work: &DiskWork) -> Result<Vec<u8>, Fail> {
    let mut text = Vec::from_slice(rt.alloc(), &work.err)?;
    text.extend_from_slice(&work.out)?;
    text.extend_from_slice(&fs::read(rt, TABLE)?)?;
    Ok(text)
}

// A period with a finished file, and an unfinished file of one before it.
fn record_one(rt: &HostRuntime) -> Result<(), Fail> {
    fs::create_dir_all(rt, "recordings/unfinished")?;
    fs::create_dir_all(rt, "recordings/2026-11-25/133500")?;
    fs::write(rt, UNFINISHED, b"abc")?;
    let text = text_of(rt.alloc(), &[ONE_FLOW, NEXT_FLOW])?;
    fs::write(rt, FIRST, &text)?;
    Ok(())
}

fn made_of(alloc: Global) -> Result<MadeWith, AllocError> {
    Ok(MadeWith {
        collectd: String::from_str(alloc, "0.0.0")?,
        plan: String::from_str(alloc, BY_SOURCE)?,
        elements: Vec::new(alloc),
        maps: Vec::new(alloc),
        left_out: Vec::new(alloc),
    })
}

fn job_of<'a>(elements: &'a Elements, plan: &'a Plan, made: &'a MadeWith) -> PeriodJob<'a> {
    PeriodJob {
        recordings: "recordings",
        collect: CollectJob::plain(elements, plan, Engine::Lots(1), CSV),
        made,
        rows_of_a_session: 1_000_000,
    }
}

// The tables of a plan with this text in a folder, which has it then.
fn tables_of<'a>(
    rt: &'a HostRuntime,
    folder: &'a Folder,
    plan: &'a str,
) -> Result<PlanTables<'a>, PlanFault> {
    let tables = PlanTables::open(rt, folder, "source", plan, TablesOf::Periods, "csv")?;
    tables.keep_plan()?;
    Ok(tables)
}

// The rounds of a period that waits for an unfinished file, is made, made again after a late file came, and stays when a file
// is gone.
fn rounds_of<R: Clock + Threads + Wait + Sync>(
    threads: &R,
    rt: &HostRuntime,
) -> Result<Vec<u8>, Fail> {
    let alloc: Global = rt.alloc();
    record_one(rt)?;
    let plan = read_plan(alloc, BY_SOURCE)?;
    let elements = Elements::built_in(alloc);
    let made = made_of(alloc)?;
    let job = job_of(&elements, &plan, &made);
    let folder = open_folder(rt, alloc, "tables")?;
    let mut work = work_of(rt, job, tables_of(rt, &folder, BY_SOURCE)?);
    take_all(threads, rt, &mut work, OVER)?;
    fs::remove_file(rt, UNFINISHED)?;
    take_all(threads, rt, &mut work, OVER + 1)?;
    fs::write(rt, LATE, ONE_FLOW)?;
    take_all(threads, rt, &mut work, OVER + 600)?;
    fs::remove_file(rt, FIRST)?;
    take_all(threads, rt, &mut work, OVER + 1200)?;
    texts_of(rt, &work)
}

#[test]
fn a_table_is_made_again_and_stays(rt: HostRuntime) -> Result<(), Fail> {
    let text = rounds_of(&rt, &rt)?;
    let want = b"collectd: tables: 2026-11-25/133500: not finished: 1795613400-192.0.2.1-40012-3
1
0
0
collectd: tables: 2026-11-25/133500: gone: recordings/2026-11-25/133500/192.0.2.1-40012-7.ipfix
1
tables/source/2026-11-25/133500.csv
tables/source/2026-11-25/133500.csv
start,end,sourceIPv4Address,octetDeltaCount,flows
0,59999,192.0.2.1,4500,3
";
    assert_eq!(rt; text.as_slice(), want.as_slice());
    Ok(())
}

#[test]
fn tables_of_another_plan_are_refused(rt: HostRuntime) -> Result<(), Fail> {
    let folder = open_folder(&rt, rt.alloc(), "tables")?;
    let tables = tables_of(&rt, &folder, BY_SOURCE)?;
    drop(tables);
    let other = tables_of(&rt, &folder, "interval_ms = 1\n");
    assert!(rt; matches!(other, Err(PlanFault::OtherPlan)));
    Ok(())
}
