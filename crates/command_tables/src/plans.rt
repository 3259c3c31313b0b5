//! The plans of the command line, and the work on their tables.

ghost use Rattle.std.specs.Prelude.{◌≡◌, IfErr, IfOk, map};
ghost use Rattle.std.specs.List.{AllZip};
ghost use Rattle.cli_inputs.specs.Formats.{format_word};
ghost use Rattle.period_tables.specs.Rounds.{AreNew};
ghost use Rattle.tables_folder.specs.PlanPlaces.{HasTablesOf};
ghost use Rattle.command_tables.specs.Plans.{AreDayTextsOf, AreLocalOf, AreTextsOf, IsDaysOf, IsTextJob, IsWorkOf, tables_of as tables_for};

use crate::days::{Calendar, DayJob, DayTables, DayTexts};
use crate::opening::{NamedPlan, ending_of, tell_plan};
use crate::texts::{TextJob, Texts};
use cli_inputs::{PlanMade, TableArguments, TablesArguments, collect_job, load_plan_made};
use command_collect::Engine;
use flow_export::Format;
use input_sources::{FileInTurn, FilesInTurn, WithReason};
use ipfix_session::FromReader;
use jiff::tz::TimeZone;
use local_days::LocalInterval;
use output_tables::Output;
use period_collect::{PeriodJob, TableMaker};
use period_tables::{Desk, Rounds, Work};
use recording_folder::Folder;
use report_writing::Status;
use std::io::{Stderr, Stdout};
use std::marker::PhantomData;
use table_parts::PlanAtHand;
use tables_folder::{PlanTables, RecordingsFolder, TablesOf};

/// A plan that was read, with its maps.
#[derive(Drop)]
pub(crate) struct ReadPlan<'p> {
    pub named: NamedPlan<'p>,
    pub made: PlanMade,
}

/// What the command works with: a folder of recordings, what makes tables of its files, the folder of a plan's tables, and where
/// lines go.
pub(crate) type TablesWork<'a> = Work<
    RecordingsFolder<'a>,
    TableMaker<'a, FromReader<FileInTurn<'a>>, FilesInTurn<'a>, Stderr>,
    PlanTables<'a>,
    WithReason<Stdout>,
    Stderr,
>;

/// A plan by its name, the work on its tables in IPFIX, and that on their texts in another format and on the tables of its days
/// and of its months, if there are to be any.
#[derive(Drop)]
pub(crate) struct PlanWork<'a> {
    pub name: &'a str,
    pub work: TablesWork<'a>,
    pub texts: Option<PlanTexts<'a>>,
    pub local: Option<LocalTables<'a>>,
}

/// The texts of a plan's tables, and how they are made.
#[derive(Drop)]
pub(crate) struct PlanTexts<'a> {
    pub job: TextJob<'a>,
    pub texts: Texts<PlanTables<'a>>,
}

/// The tables of a plan's days and of its months.
#[derive(Drop)]
pub(crate) struct LocalTables<'a> {
    pub days: PlanDays<'a>,
    pub months: PlanDays<'a>,
}

/// The tables of a plan's days or of its months, and their texts in another format, if there are to be any.
#[derive(Drop)]
pub(crate) struct PlanDays<'a> {
    pub tables: DayTables<'a, PlanTables<'a>>,
    pub texts: Option<DayTexts<'a, PlanTables<'a>>>,
}

/// Reads each of these plans. If one can't be, `err` has a line.
pub(crate) fn read_plans<'p>(
    rt: &HostRuntime,
    arguments: &TablesArguments<'_, 'p>,
    named: &[NamedPlan<'p>],
    err: &mut Stderr,
) -> Result<Vec<ReadPlan<'p>>, Status>
    ensures { IfOk result (λ plans. map (λ plan. plan.named) plans.items ≡ named.now) }
{
    let mut plans = Vec::new(rt.alloc());
    for plan in named {
        let made = load_plan_made(rt, &arguments.table(plan.path), err)?;
        let plan = ReadPlan { named: *plan, made };
        let Ok(()) = plans.push(plan) else {
            return Err(Status::Failed);
        };
    }
    Ok(plans)
}

/// The work on the tables of each of these plans. Nothing is written yet. If there are tables of another plan, or none can be
/// put, `err` has a line.
pub(crate) fn open_plans<'a>(
    rt: &'a HostRuntime,
    arguments: &TablesArguments<'_, 'a>,
    engine: Engine,
    folder: &'a Folder,
    read: &'a [ReadPlan<'a>],
    zone: Option<TimeZone<'a>>,
    err: &mut Stderr,
) -> Result<Vec<PlanWork<'a>>, Status>
    ensures { IfOk result (λ plans. AllZip (IsWorkOf arguments.now zone.entry) read.now plans.items) }
{
    let mut plans = Vec::new(rt.alloc());
    for plan in read {
        let work = open_plan(rt, arguments, engine, folder, plan, zone, err)?;
        let Ok(()) = plans.push(work) else {
            return Err(Status::Failed);
        };
    }
    Ok(plans)
}

fn open_plan<'a>(
    rt: &'a HostRuntime,
    arguments: &TablesArguments<'_, 'a>,
    engine: Engine,
    folder: &'a Folder,
    plan: &'a ReadPlan<'a>,
    zone: Option<TimeZone<'a>>,
    err: &mut Stderr,
) -> Result<PlanWork<'a>, Status>
    ensures ok { IfOk result (IsWorkOf arguments.now zone.entry plan.now) }
    ensures err { IfErr result (λ status. status ≡ Status.NotOpened) }
{
    let NamedPlan { path, name } = plan.named;
    let PlanMade { loaded, maps, made } = &plan.made;
    let (into, of) = (arguments.into, TablesOf::Periods);
    let tables = open_named(rt, into, folder, plan, of, Format::Ipfix, err)?;
    let texts = open_texts(rt, arguments, folder, plan, err)?;
    let local = open_local(rt, arguments, folder, plan, zone, err)?;
    let table = as_ipfix(&arguments.table(path));
    let job = PeriodJob {
        recordings: arguments.from,
        collect: collect_job(loaded, maps.as_ref(), &table, engine, None, &[]),
        made,
        rows_of_a_session: arguments.rows_of_a_session,
    };
    Ok(PlanWork {
        name,
        work: work_of(rt, job, tables),
        texts,
        local,
    })
}

// What is told of tables, but that they are written as IPFIX.
fn as_ipfix<'m, 'w>(table: &TableArguments<'m, 'w>) -> TableArguments<'m, 'w>
    ensures { result ≡ record table.now
        { output = record table.now.output { format = Format.Ipfix } } }
{
    let output = Output {
        format: Format::Ipfix,
        ..table.output
    };
    TableArguments { output, ..*table }
}

// The tables of a plan in this format. If there are some of another plan, or none can be put, `err` has a line.
fn open_named<'a>(
    rt: &'a HostRuntime,
    into: &str,
    folder: &'a Folder,
    plan: &'a ReadPlan<'a>,
    of: TablesOf,
    format: Format,
    err: &mut Stderr,
) -> Result<PlanTables<'a>, Status>
    ensures ok { IfOk result (HasTablesOf of (format_word format)) }
    ensures err { IfErr result (λ status. status ≡ Status.NotOpened) }
{
    let name = plan.named.name;
    match PlanTables::open(
        rt,
        folder,
        name,
        plan.made.made.plan.as_str(),
        of,
        ending_of(format),
    ) {
        Ok(tables) => Ok(tables),
        Err(fault) => Err(tell_plan(into, name, &fault, err)),
    }
}

// The texts of a plan's tables, unless they are written as IPFIX only.
fn open_texts<'a>(
    rt: &'a HostRuntime,
    arguments: &TablesArguments<'_, 'a>,
    folder: &'a Folder,
    plan: &'a ReadPlan<'a>,
    err: &mut Stderr,
) -> Result<Option<PlanTexts<'a>>, Status>
    ensures ok { IfOk result (AreTextsOf plan.now arguments.now.output) }
    ensures err { IfErr result (λ status. status ≡ Status.NotOpened) }
{
    let format = arguments.output.format;
    if let Format::Ipfix = format {
        return Ok(None);
    }
    let (into, of) = (arguments.into, TablesOf::Periods);
    let place = open_named(rt, into, folder, plan, of, format, err)?;
    let job = text_job(plan, arguments.output);
    let rounds = Rounds::new(rt.alloc());
    let texts = Texts { place, rounds };
    Ok(Some(PlanTexts { job, texts }))
}

// How texts of the tables of a plan are made.
fn text_job<'a>(plan: &'a ReadPlan<'a>, output: Output) -> TextJob<'a>
    ensures { IsTextJob plan.now output result }
{
    let PlanMade { loaded, made, .. } = &plan.made;
    TextJob {
        elements: &loaded.elements,
        plan: &loaded.read.plan,
        at_hand: PlanAtHand {
            text: made.plan.as_str(),
            elements: &made.elements,
            maps: &made.maps,
        },
        output,
        collectd: made.collectd.as_str(),
    }
}

// The tables of a plan's days and of its months, if there is a zone.
fn open_local<'a>(
    rt: &'a HostRuntime,
    arguments: &TablesArguments<'_, 'a>,
    folder: &'a Folder,
    plan: &'a ReadPlan<'a>,
    zone: Option<TimeZone<'a>>,
    err: &mut Stderr,
) -> Result<Option<LocalTables<'a>>, Status>
    ensures ok { IfOk result (AreLocalOf plan.now arguments.now.output zone.entry) }
    ensures err { IfErr result (λ status. status ≡ Status.NotOpened) }
{
    let Some(zone) = zone else {
        return Ok(None);
    };
    let interval = LocalInterval::Day;
    let days = open_days(
        rt,
        arguments,
        folder,
        plan,
        Calendar { interval, zone },
        err,
    )?;
    let interval = LocalInterval::Month;
    let months = open_days(
        rt,
        arguments,
        folder,
        plan,
        Calendar { interval, zone },
        err,
    )?;
    Ok(Some(LocalTables { days, months }))
}

// The tables of its days, or of its months.
fn open_days<'a>(
    rt: &'a HostRuntime,
    arguments: &TablesArguments<'_, 'a>,
    folder: &'a Folder,
    plan: &'a ReadPlan<'a>,
    calendar: Calendar<'a>,
    err: &mut Stderr,
) -> Result<PlanDays<'a>, Status>
    ensures ok { IfOk result (IsDaysOf plan.now arguments.now.output calendar.entry) }
    ensures err { IfErr result (λ status. status ≡ Status.NotOpened) }
{
    let (into, output) = (arguments.into, arguments.output);
    let of = tables_of(calendar.interval);
    let place = open_named(rt, into, folder, plan, of, Format::Ipfix, err)?;
    let texts = open_day_texts(rt, arguments, folder, plan, of, err)?;
    let format = Format::Ipfix;
    let text = text_job(plan, Output { format, ..output });
    let verbosity = arguments.verbosity;
    let job = DayJob { text, verbosity };
    Ok(PlanDays {
        tables: DayTables {
            calendar,
            job,
            place,
        },
        texts,
    })
}

fn tables_of(interval: LocalInterval) -> TablesOf
    ensures { result ≡ tables_for interval }
{
    match interval {
        LocalInterval::Day => TablesOf::Days,
        LocalInterval::Month => TablesOf::Months,
    }
}

// Their texts, unless they are written as IPFIX only.
fn open_day_texts<'a>(
    rt: &'a HostRuntime,
    arguments: &TablesArguments<'_, 'a>,
    folder: &'a Folder,
    plan: &'a ReadPlan<'a>,
    of: TablesOf,
    err: &mut Stderr,
) -> Result<Option<DayTexts<'a, PlanTables<'a>>>, Status>
    ensures ok { IfOk result (AreDayTextsOf plan.now arguments.now.output of) }
    ensures err { IfErr result (λ status. status ≡ Status.NotOpened) }
{
    let format = arguments.output.format;
    if let Format::Ipfix = format {
        return Ok(None);
    }
    let place = open_named(rt, arguments.into, folder, plan, of, format, err)?;
    let job = text_job(plan, arguments.output);
    Ok(Some(DayTexts { job, place }))
}

// What a run with this job works with.
fn work_of<'a>(rt: &'a HostRuntime, job: PeriodJob<'a>, tables: PlanTables<'a>) -> TablesWork<'a>
    ensures job { result.desk.maker.job ≡ job.entry }
    ensures tables { result.desk.tables ≡ tables.entry }
    ensures rounds { AreNew result.rounds }
{
    Work {
        desk: Desk {
            folder: RecordingsFolder::new(rt, job.recordings),
            maker: TableMaker {
                alloc: rt.alloc(),
                opening: FilesInTurn::new(rt, rt.alloc()),
                sources: PhantomData,
                job,
                err: rt.stderr(),
            },
            tables,
        },
        out: WithReason::new(rt.stdout()),
        err: rt.stderr(),
        rounds: Rounds::new(rt.alloc()),
    }
}

/// Gives the folder of each plan its text, if it has none. If that can't be, `err` has a line.
pub(crate) fn keep_plans(into: &str, plans: &[PlanWork], err: &mut Stderr) -> Result<(), Status>
    ensures { IfErr result (λ status. status ≡ Status.NotOpened) }
{
    for plan in plans {
        if let Err(fault) = plan.work.desk.tables.keep_plan() {
            return Err(tell_plan(into, plan.name, &fault, err));
        }
    }
    Ok(())
}
