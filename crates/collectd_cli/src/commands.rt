//! The commands. Each answers how it ended; an error says how if the library was not called.

ghost use Rattle.std.specs.Prelude.{◌≡◌, MatchBool, false};
ghost use Rattle.std.specs.Option.{ForSome};
ghost use Rattle.flow_merge.specs.RowRecords.{AreOrdered, CanTakeRows};

use cli_inputs::{
    CollectArguments, Collecting, DumpArguments, FilesArguments, KnownElements, MergeArguments,
    PlanMade, ProgressOutput, ReceiptTo, TableArguments, TcpArguments, VerifyArguments, all_paths,
    buffered_output, check_exporters, check_paths, check_receipts, collect_job, listen_on,
    load_known, load_plan_made, load_table_plan, merged_into, merged_place, place_exporters,
    prepare_collecting, progress_writer, read_list, receipt_paths, table_output,
    write_refused_output, zone_borders,
};
use command_collect::{
    CollectJob, Connections, Ended, Engine, MadeWith, Receipted, SystemPlace, run_files_receipted,
    run_files_with, run_tcp_receipted, run_tcp_with, write_collect_fault, write_limit,
};
use command_dump::{DumpJob, run_dump_with, write_dump_fault};
use command_merge::{MergeJob, run_merge_with};
use command_merge_receipts::{MergedEnd, MergedTo, PartsJob, run_merge_parts};
use command_verify::{VerifyJob, run_verify, table_of_receipt};
use flow_collect::{CollectFault, Pool};
use flow_export::Intervals;
use input_sources::{FilesInTurn, LoadedPlan, OpenSource, SystemFiles, SystemListener, WithReason};
use ipfix_dump::DumpFault;
use ipfix_session::{FromReader, Source};
use receipt_merging::Allowed;
use report_writing::{CheckedWriter, Origin, Status, Verbosity};
use std::alloc::{AllocError, Global};
use std::io::{BufWriter, Stderr, Stdout};
use std::rt::Clock;
use std::sync::Wait;
use std::thread::Threads;
use table_parts::{PartFiles, PlanAtHand};
use table_receipts::MergedInto;

/// `collectd dump`: standard input to standard output.
pub fn dump(rt: &HostRuntime, arguments: &DumpArguments) -> Result<Status, Status> {
    let mut err = CheckedWriter::new(rt.stderr());
    let Some(mut out) = buffered_output(rt) else {
        let _ = write_dump_fault(DumpFault::OutOfMemory, &mut err);
        return Err(Status::Failed);
    };
    let DumpArguments {
        form,
        element_files,
        templates,
        verbosity,
    } = *arguments;
    let job = DumpJob {
        form,
        element_files,
        templates,
        origin: Origin::Unknown,
        verbosity,
    };
    let status = run_dump_with(
        rt,
        rt.alloc(),
        &job,
        &mut FromReader::new(rt.stdin()),
        &mut out,
        &mut err,
    );
    write_refused_output(verbosity, &out, &mut rt.stderr());
    Ok(status)
}

/// `collectd files`: the table of the sessions in files to standard output.
pub fn files<R: Clock + Threads + Wait + Sync>(
    threads: &R,
    rt: &HostRuntime,
    arguments: &FilesArguments,
) -> Result<Status, Status> {
    let mut err = rt.stderr();
    let FilesArguments {
        collect,
        direct,
        paths,
        list,
        exporters,
    } = *arguments;
    let verbosity = collect.table.verbosity;
    let listed = read_list(rt, list, verbosity, &mut err)?;
    let Ok(paths) = all_paths(rt.alloc(), paths, listed.as_str()) else {
        return Err(without_memory(&mut err));
    };
    check_paths(&paths, list, &mut err)?;
    check_exporters(&paths, exporters, &mut err)?;
    let Ok(exporters) = place_exporters(rt.alloc(), &paths, exporters) else {
        return Err(without_memory(&mut err));
    };
    let Collecting {
        loaded,
        maps,
        out,
        receipt,
        terminal,
    } = prepare_collecting(rt, &collect, &mut err)?;
    let engine = engine_of(direct, collect.pool);
    let table = &collect.table;
    let limit = collect.templates;
    let job = collect_job(&loaded, maps.as_ref(), table, engine, limit, &exporters);
    let progress = progress_writer(collect.progress, &terminal, rt);
    let to = TableTo { out, receipt };
    let TableWritten { status, out } = if direct {
        let mut files = FilesInTurn::new(rt, rt.alloc());
        collect_files(threads, rt, &mut files, &paths, &job, progress, to)
    } else {
        let mut files = SystemFiles::new(rt);
        collect_files(threads, rt, &mut files, &paths, &job, progress, to)
    };
    write_refused_output(verbosity, &out, &mut err);
    write_refused_engine(status, verbosity, engine, paths.len(), &mut err);
    Ok(status)
}

// There was no memory for the names of files and what is told of them.
fn without_memory(err: &mut Stderr) -> Status {
    let _ = write_collect_fault(CollectFault::OutOfMemory, err);
    Status::Failed
}

// Collects from the files of these paths, with standard error for what is told.
fn collect_files<S: Source + Send + Drop, O: OpenSource<S>, R: Clock + Threads + Wait + Sync>(
    threads: &R,
    rt: &HostRuntime,
    files: &mut O,
    paths: &[&str],
    job: &CollectJob,
    progress: Option<ProgressOutput>,
    to: TableTo,
) -> TableWritten {
    let mut err = CheckedWriter::new(rt.stderr());
    let alloc = rt.alloc();
    let TableTo { mut out, receipt } = to;
    let Some(ReceiptTo { place, made }) = receipt else {
        let status = run_files_with(
            threads, alloc, files, paths, job, progress, &mut out, &mut err,
        );
        return TableWritten { status, out };
    };
    let to = Receipted { out, made, place };
    settled(run_files_receipted(threads, alloc, files, paths, job, progress, to, &mut err))
}

// Where a table is written, and its receipt, if there is to be one.
#[derive(Drop)]
struct TableTo<'r> {
    out: BufWriter<WithReason<Stdout>>,
    receipt: Option<ReceiptTo<'r>>,
}

// How a run ended, and where it wrote its table.
#[derive(Drop)]
struct TableWritten {
    status: Status,
    out: BufWriter<WithReason<Stdout>>,
}

// Leaves nothing of a receipt that there was to be.
fn discard(receipt: Option<ReceiptTo>) {
    match receipt {
        Some(ReceiptTo { place, made: _made }) => place.discard(),
        None => {}
    }
}

// Leaves nothing of a receipt that wasn't put.
fn settled(ended: Ended<BufWriter<WithReason<Stdout>>, SystemPlace>) -> TableWritten {
    let Ended {
        status,
        out,
        place,
        ..
    } = ended;
    match status {
        Status::Well | Status::SessionFault => {}
        Status::NotOpened | Status::Failed => place.discard(),
    }
    TableWritten { status, out }
}

// What collects from files.
fn engine_of(direct: bool, pool: Pool) -> Engine
    ensures { MatchBool direct (result ≡ Engine.Lots pool.workers) (result ≡ Engine.Links pool) }
{
    if direct {
        Engine::Lots(pool.workers)
    } else {
        Engine::Links(pool)
    }
}

/// `collectd tcp`: the table of the sessions that come over connections to standard output.
pub fn tcp<R: Clock + Threads + Wait + Sync>(
    threads: &R,
    rt: &HostRuntime,
    arguments: &TcpArguments,
) -> Result<Status, Status> {
    let mut err = rt.stderr();
    let TcpArguments {
        collect,
        addr,
        sessions,
        idle,
    } = *arguments;
    let Collecting {
        loaded,
        maps,
        out,
        receipt,
        terminal,
    } = prepare_collecting(rt, &collect, &mut err)?;
    let verbosity = collect.table.verbosity;
    let listener = match listen_on(rt, addr, verbosity, &mut err) {
        Ok(listener) => listener,
        Err(status) => {
            discard(receipt);
            return Err(status);
        }
    };
    let mut listening = SystemListener::new(listener);
    let engine = Engine::Links(collect.pool);
    let connections = Connections {
        address: addr,
        count: sessions,
        idle,
    };
    let table = &collect.table;
    let limit = collect.templates;
    let job = collect_job(&loaded, maps.as_ref(), table, engine, limit, &[]);
    let progress = progress_writer(collect.progress, &terminal, rt);
    let to = TableTo { out, receipt };
    let TableWritten { status, out } = collect_connections(
        threads,
        rt,
        &mut listening,
        &connections,
        &job,
        progress,
        to,
    );
    write_refused_output(verbosity, &out, &mut err);
    write_refused_engine(status, verbosity, engine, sessions, &mut err);
    Ok(status)
}

// Collects from these connections, with standard error for what is told.
fn collect_connections<R: Clock + Threads + Wait + Sync>(
    threads: &R,
    rt: &HostRuntime,
    listener: &mut SystemListener,
    connections: &Connections,
    job: &CollectJob,
    progress: Option<ProgressOutput>,
    to: TableTo,
) -> TableWritten {
    let mut err = CheckedWriter::new(rt.stderr());
    let alloc = rt.alloc();
    let TableTo { mut out, receipt } = to;
    let Some(ReceiptTo { place, made }) = receipt else {
        let status = run_tcp_with(
            threads,
            alloc,
            listener,
            connections,
            job,
            progress,
            &mut out,
            &mut err,
        );
        return TableWritten { status, out };
    };
    let to = Receipted { out, made, place };
    settled(run_tcp_receipted(
        threads,
        alloc,
        listener,
        connections,
        job,
        progress,
        to,
        &mut err,
    ))
}

/// `collectd merge`: the table of the exports in files to standard output.
pub fn merge(rt: &HostRuntime, arguments: &MergeArguments) -> Result<Status, Status> {
    let mut err = rt.stderr();
    let MergeArguments {
        table,
        paths,
        into,
        zone,
        receipts,
        ..
    } = *arguments;
    check_paths(paths, None, &mut err)?;
    check_receipts(arguments, &mut err)?;
    let borders = zone_borders(rt, into, zone, &mut err)?;
    if receipts {
        return merge_parts(rt, arguments, &borders, &mut err);
    }
    let loaded = load_table_plan(rt, &table).ok_or(Status::NotOpened)?;
    let mut out = table_output(rt, &mut err)?;
    let mut files = SystemFiles::new(rt);
    let status = run_merge_with(
        &mut files,
        rt.alloc(),
        paths,
        &merge_job(&loaded, &table, intervals_of(&borders)),
        &mut out,
        &mut CheckedWriter::new(rt.stderr()),
    );
    write_refused_output(table.verbosity, &out, &mut err);
    Ok(status)
}

// The same by the receipts of the files.
fn merge_parts(
    rt: &HostRuntime,
    arguments: &MergeArguments,
    borders: &Option<Vec<u64>>,
    err: &mut Stderr,
) -> Result<Status, Status>
    requires { ForSome borders.now (λ b. AreOrdered b.items) }
{
    let table = &arguments.table;
    let alloc = rt.alloc();
    let PlanMade { loaded, made, .. } = load_plan_made(rt, table, err)?;
    let Ok(receipts) = receipt_paths(alloc, arguments.paths, arguments.receipts_of) else {
        return Err(without_memory(err));
    };
    let Ok(parts) = part_files(alloc, arguments.paths, &receipts) else {
        return Err(without_memory(err));
    };
    let Ok(into) = merged_into(alloc, arguments.into, arguments.zone) else {
        return Err(without_memory(err));
    };
    let out = table_output(rt, err)?;
    let place = merged_place(rt, arguments.receipt, &parts, table.verbosity, err)?;
    let merge = merge_job(&loaded, table, intervals_of(borders));
    let job = parts_job(merge, &made, &parts, arguments.incomplete, into.as_ref());
    let told = &mut CheckedWriter::new(rt.stderr());
    let ended = run_merge_parts(rt, alloc, &job, MergedTo { out, place }, told);
    let TableWritten { status, out } = merge_settled(ended);
    write_refused_output(table.verbosity, &out, err);
    Ok(status)
}

// Leaves nothing of a receipt that there was to be, and that wasn't put.
fn merge_settled(ended: MergedEnd<BufWriter<WithReason<Stdout>>, SystemPlace>) -> TableWritten {
    let MergedEnd { status, to } = ended;
    let MergedTo { out, place } = to;
    match place {
        Some(place) => settled(Ended {
            status,
            hindrance: None,
            out,
            place,
        }),
        None => TableWritten { status, out },
    }
}

// The files of parts, by their places.
fn part_files<'a>(
    alloc: Global,
    tables: &[&'a str],
    receipts: &'a [String],
) -> Result<Vec<PartFiles<'a>>, AllocError> {
    let mut parts = Vec::new(alloc);
    for (table, receipt) in tables.iter().zip(receipts) {
        parts.push(PartFiles {
            table: *table,
            receipt: receipt.as_str(),
        })?;
    }
    Ok(parts)
}

/// `collectd verify`: a table compared with its receipt.
pub fn verify<R: Clock + Threads + Wait + Sync>(
    threads: &R,
    rt: &HostRuntime,
    arguments: &VerifyArguments,
) -> Result<Status, Status> {
    let VerifyArguments {
        receipt,
        table,
        again,
        exporters,
        element_files,
        verbosity,
    } = *arguments;
    let Some(table) = table.or(table_of_receipt(receipt)) else {
        let _ = eprintln!(rt;
            "error: --table FILE is needed for a receipt whose name doesn't end in .receipt"
        );
        return Err(Status::NotOpened);
    };
    let mut err = rt.stderr();
    check_paths(again, None, &mut err)?;
    check_exporters(again, exporters, &mut err)?;
    let Ok(exporters) = place_exporters(rt.alloc(), again, exporters) else {
        return Err(without_memory(&mut err));
    };
    let KnownElements { elements, files } = load_known(rt, element_files, verbosity, &mut err)?;
    let job = VerifyJob {
        alloc: rt.alloc(),
        receipt,
        table,
        again,
        exporters: &exporters,
        element_files: &files,
        verbosity,
    };
    Ok(run_verify(
        threads,
        rt,
        &mut FilesInTurn::new(rt, rt.alloc()),
        elements,
        &job,
        None::<ProgressOutput>,
        &mut CheckedWriter::new(rt.stderr()),
    ))
}

// The intervals that rows are put in: those between borders, if there are some.
fn intervals_of(borders: &Option<Vec<u64>>) -> Intervals<'_>
    requires { ForSome borders.now (λ b. AreOrdered b.items) }
    ensures { CanTakeRows result }
{
    match borders {
        Some(borders) => Intervals::Between(borders.as_slice()),
        None => Intervals::OfPlan,
    }
}

// What a merge by receipts is to do, under the plan that its receipt tells, too.
fn parts_job<'a>(
    merge: MergeJob<'a>,
    made: &'a MadeWith,
    parts: &'a [PartFiles<'a>],
    incomplete: bool,
    into: Option<&'a MergedInto>,
) -> PartsJob<'a>
    requires { CanTakeRows merge.intervals }
    ensures merge { result.merge ≡ merge.entry }
    ensures rows { CanTakeRows result.merge.intervals }
    ensures parts { result.parts.now ≡ parts.now }
    // No input may come twice, and parts need not be complete only if that is asked for.
    ensures allowed { result.allowed ≡ record { incomplete = incomplete; twice = false } }
    // Its receipt says into what rows are merged.
    ensures into { result.into ≡ into.entry }
{
    PartsJob {
        merge,
        plan: PlanAtHand {
            text: made.plan.as_str(),
            elements: &made.elements,
            maps: &made.maps,
        },
        parts,
        allowed: Allowed {
            incomplete,
            twice: false,
        },
        into,
        collectd: made.collectd.as_str(),
    }
}

// What a merge is to do. Rows were filtered when they were collected: the plan's conditions say nothing of them.
fn merge_job<'a>(
    loaded: &'a LoadedPlan,
    table: &TableArguments,
    intervals: Intervals<'a>,
) -> MergeJob<'a>
    requires { CanTakeRows intervals }
    // It names the plan's keys and counters by the elements that the plan was read with.
    ensures names { result.elements.now ≡ loaded.now.elements }
    ensures plan { result.plan.now ≡ loaded.now.read.plan }
    ensures intervals { result.intervals ≡ intervals.entry }
    ensures rows { CanTakeRows result.intervals }
    // The rest is as the command is told.
    ensures output { result.output ≡ table.now.output }
    ensures verbosity { result.verbosity ≡ table.now.verbosity }
{
    MergeJob {
        elements: &loaded.elements,
        plan: &loaded.read.plan,
        intervals,
        output: table.output,
        verbosity: table.verbosity,
    }
}

// What an engine and that many sessions may be, if the run failed by them: `err` has a
// line if `verbosity` is verbose.
fn write_refused_engine(
    status: Status,
    verbosity: Verbosity,
    engine: Engine,
    sessions: usize,
    err: &mut Stderr,
) {
    if status == Status::Failed {
        let _ = write_limit(verbosity, engine, sessions, err);
    }
}
