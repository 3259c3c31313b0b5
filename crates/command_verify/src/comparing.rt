//! Comparing a table with its receipt, and with the one that files give.

ghost use Rattle.std.specs.Prelude.{◌≡◌, ◌++◌, IfOk};
ghost use Rattle.report_writing.specs.Lines.{StaysFailed};
ghost use Rattle.report_writing.specs.Told.{AreToldTo};
ghost use Rattle.report_writing.specs.Writing.{Tells};
ghost use Rattle.command_verify.specs.Again.{ComparesAlone, ComparesFiles, ComparesGiven, ComparesLoaded, ComparesMapped, ComparesWith, IsMadeBy, OpensBy, OpensOrLacks, TellsAgain, again_fault_line, files_differ, given_differ, own_differ, there_value};

use crate::maps::load_said_maps;
use crate::telling::{tell_differences, tell_fault, tell_merged};
use crate::verify::VerifyJob;
use command_collect::{RemakeFault, write_collect_fault, write_run_fault};
use element_registry::Elements;
use flow_maps::Maps;
use input_files::ReadText;
use input_sources::{LoadedPlan, NotOpened, OpenSource, OpenedAll, load_plan_text, open_all};
use ipfix_session::Source;
use receipt_differences::{
    write_element_differences, write_map_differences, write_table_differences,
};
use receipt_maps::MapsOfPlan;
use report_writing::{Origin, Status, WriteLines, write_fault, write_not_had_because};
use std::alloc::{AllocError, Global};
use std::io::{self, Write};
use std::rt::Clock;
use std::sync::Wait;
use std::thread::Threads;
use table_receipts::{FileReceipt, ReceiptFault};
use table_remaking::{AgainFault, MadeBy, TableThere, compare_again};

/// Compares a table with its receipt; and with files with the one that these give, unless its rows were merged into days or
/// months.
pub fn compare_files<
    T: ReadText,
    S: Source + Send + Drop,
    O: OpenSource<S>,
    P: Write + Copy + Drop + Send,
    E: WriteLines,
    R: Clock + Threads + Wait + Sync,
>(
    rt: &R,
    texts: &T,
    files: &mut O,
    elements: Elements,
    job: &VerifyJob,
    there: &TableThere,
    progress: Option<P>,
    err: &mut E,
) -> Status
    ensures compares { ComparesFiles S.seen job.now (there_value there.now) result
        O.opens O.sizes O.refuses O.coming files.old files.new
        (AreToldTo E.lines err.old err.new) (T.has texts.now) (T.refuses texts.now) elements }
    ensures kept { StaysFailed E.lines err.old err.new }
{
    if job.again.is_empty() {
        return compare_alone(job.alloc, there, b"", err);
    }
    match &there.receipt.table.into {
        Some(into) => tell_merged(into.interval, err),
        None => compare_given(rt, texts, files, elements, job, there, progress, err),
    }
}

// Compares a table with its receipt, and tells this after what differs.
fn compare_alone<E: WriteLines>(
    alloc: Global,
    there: &TableThere,
    behind: &[u8],
    err: &mut E,
) -> Status
    ensures compares { ComparesAlone (there_value there.now) result
        behind.now (AreToldTo E.lines err.old err.new) }
    ensures kept { StaysFailed E.lines err.old err.new }
{
    match differences_of(alloc, there, behind) {
        Ok(lines) => tell_differences(there.receipt, &lines, err),
        Err(AllocError) => tell_fault(ReceiptFault::OutOfMemory, err),
    }
}

// Makes the table again, if the files of elements are those of the receipt, by its plan.
fn compare_given<
    T: ReadText,
    S: Source + Send + Drop,
    O: OpenSource<S>,
    P: Write + Copy + Drop + Send,
    E: WriteLines,
    R: Clock + Threads + Wait + Sync,
>(
    rt: &R,
    texts: &T,
    files: &mut O,
    elements: Elements,
    job: &VerifyJob,
    there: &TableThere,
    progress: Option<P>,
    err: &mut E,
) -> Status
    ensures compares { ComparesGiven S.seen job.now (there_value there.now) result
        O.opens O.sizes O.refuses O.coming files.old files.new
        (AreToldTo E.lines err.old err.new) (T.has texts.now) (T.refuses texts.now) elements }
    ensures kept { StaysFailed E.lines err.old err.new }
{
    let Ok(lines) = given_differences(job, there) else {
        return tell_fault(ReceiptFault::OutOfMemory, err);
    };
    if !lines.is_empty() {
        return compare_alone(job.alloc, there, &lines, err);
    }
    match load_plan_text(job.alloc, elements, there.receipt.plan.as_bytes(), err) {
        Some(loaded) => compare_loaded(rt, texts, files, job, loaded, there, progress, err),
        None => Status::NotOpened,
    }
}

// Makes the table again by this plan, and by its maps, if it names some.
fn compare_loaded<
    T: ReadText,
    S: Source + Send + Drop,
    O: OpenSource<S>,
    P: Write + Copy + Drop + Send,
    E: WriteLines,
    R: Clock + Threads + Wait + Sync,
>(
    rt: &R,
    texts: &T,
    files: &mut O,
    job: &VerifyJob,
    loaded: LoadedPlan,
    there: &TableThere,
    progress: Option<P>,
    err: &mut E,
) -> Status
    ensures compares { ComparesLoaded S.seen job.now (there_value there.now) result
        O.opens O.sizes O.refuses O.coming files.old files.new
        (AreToldTo E.lines err.old err.new) (T.has texts.now) (T.refuses texts.now) loaded }
    ensures kept { StaysFailed E.lines err.old err.new }
{
    if loaded.maps.maps.is_empty() {
        open_with(rt, files, job, loaded, None, there, progress, err)
    } else {
        compare_mapped(rt, texts, files, job, loaded, there, progress, err)
    }
}

// Loads the files of maps that the receipt names, and makes the table again by these maps.
fn compare_mapped<
    T: ReadText,
    S: Source + Send + Drop,
    O: OpenSource<S>,
    P: Write + Copy + Drop + Send,
    E: WriteLines,
    R: Clock + Threads + Wait + Sync,
>(
    rt: &R,
    texts: &T,
    files: &mut O,
    job: &VerifyJob,
    loaded: LoadedPlan,
    there: &TableThere,
    progress: Option<P>,
    err: &mut E,
) -> Status
    ensures compares { ComparesMapped S.seen job.now (there_value there.now) result
        O.opens O.sizes O.refuses O.coming files.old files.new
        (AreToldTo E.lines err.old err.new) (T.has texts.now) (T.refuses texts.now) loaded }
    ensures kept { StaysFailed E.lines err.old err.new }
{
    match load_said_maps(
        texts,
        job.alloc,
        &there.receipt.maps,
        &loaded.maps.keys,
        job.verbosity,
        err,
    ) {
        Ok(maps) => compare_with(rt, files, job, loaded, maps, there, progress, err),
        Err(status) => status,
    }
}

// Makes the table again by these maps, if their files are those of the receipt.
fn compare_with<
    S: Source + Send + Drop,
    O: OpenSource<S>,
    P: Write + Copy + Drop + Send,
    E: WriteLines,
    R: Clock + Threads + Wait + Sync,
>(
    rt: &R,
    files: &mut O,
    job: &VerifyJob,
    loaded: LoadedPlan,
    maps: MapsOfPlan,
    there: &TableThere,
    progress: Option<P>,
    err: &mut E,
) -> Status
    ensures compares { ComparesWith S.seen job.now (there_value there.now) result
        O.opens O.sizes O.refuses O.coming files.old files.new
        (AreToldTo E.lines err.old err.new) loaded maps }
    ensures kept { StaysFailed E.lines err.old err.new }
{
    let Ok(others) = file_differences(job.alloc, &maps, there) else {
        return tell_fault(ReceiptFault::OutOfMemory, err);
    };
    if !others.is_empty() {
        return compare_alone(job.alloc, there, &others, err);
    }
    let MapsOfPlan { maps, .. } = maps;
    open_with(rt, files, job, loaded, maps, there, progress, err)
}

// Makes the table again by this plan and these maps.
fn open_with<
    S: Source + Send + Drop,
    O: OpenSource<S>,
    P: Write + Copy + Drop + Send,
    E: WriteLines,
    R: Clock + Threads + Wait + Sync,
>(
    rt: &R,
    files: &mut O,
    job: &VerifyJob,
    loaded: LoadedPlan,
    maps: Option<Maps>,
    there: &TableThere,
    progress: Option<P>,
    err: &mut E,
) -> Status
    ensures opens { OpensBy S.seen job.now (there_value there.now) result
        O.opens O.sizes O.refuses O.coming files.old files.new
        (AreToldTo E.lines err.old err.new) loaded maps }
    ensures kept { StaysFailed E.lines err.old err.new }
{
    match made_by(job, loaded, maps) {
        Ok(by) => open_files(rt, files, job, &by, there, progress, err),
        Err(AllocError) => tell_fault(ReceiptFault::OutOfMemory, err),
    }
}

// Opens the files, and makes the table again of them.
fn open_files<
    S: Source + Send + Drop,
    O: OpenSource<S>,
    P: Write + Copy + Drop + Send,
    E: WriteLines,
    R: Clock + Threads + Wait + Sync,
>(
    rt: &R,
    files: &mut O,
    job: &VerifyJob,
    by: &MadeBy,
    there: &TableThere,
    progress: Option<P>,
    err: &mut E,
) -> Status
    ensures opens { OpensOrLacks S.seen job.now (there_value there.now) result
        O.opens O.sizes O.refuses O.coming files.old files.new
        (AreToldTo E.lines err.old err.new) by.now }
    ensures kept { StaysFailed E.lines err.old err.new }
{
    match open_all(
        rt,
        job.alloc,
        files,
        job.again,
        progress,
        job.verbosity,
        err,
    ) {
        Ok(OpenedAll { sources, origins }) => {
            let sources = sources.into_sources();
            tell_again(rt, job.alloc, sources, &origins, by, there, err)
        }
        Err(NotOpened { path, reason }) => {
            let _ = write_not_had_because(job.verbosity, "open", path, reason, err);
            Status::NotOpened
        }
    }
}

// What the table is made again by.
fn made_by(job: &VerifyJob, loaded: LoadedPlan, maps: Option<Maps>) -> Result<MadeBy, AllocError>
    ensures { IfOk result (IsMadeBy job.now loaded maps) }
{
    let exporters = Vec::from_slice(job.alloc, job.exporters)?;
    Ok(MadeBy {
        loaded,
        maps,
        exporters,
    })
}

// Makes the table again of these sources, and tells what differs.
fn tell_again<S: Source + Send + Drop, E: WriteLines, R: Threads + Wait + Sync>(
    rt: &R,
    alloc: Global,
    sources: Vec<S>,
    origins: &[Origin],
    by: &MadeBy,
    there: &TableThere,
    err: &mut E,
) -> Status
    ensures tells { TellsAgain S.seen (there_value there.now) result
        by.now sources.items origins.now (AreToldTo E.lines err.old err.new) }
    ensures kept { StaysFailed E.lines err.old err.new }
{
    match compare_again(rt, alloc, sources, origins, by, there) {
        Ok(lines) => tell_differences(there.receipt, &lines, err),
        Err(fault) => {
            let _ = write_again_fault(fault, err);
            Status::Failed
        }
    }
}

// The lines of what differs in a table, and these after them.
fn differences_of(alloc: Global, there: &TableThere, behind: &[u8]) -> Result<Vec<u8>, AllocError>
    ensures { IfOk result
        (λ lines. lines.items ≡ own_differ (there_value there.now) ++ behind.now) }
{
    let mut lines = Vec::new(alloc);
    let Ok(()) = write_table_differences(&there.receipt.table, there.table, &mut lines) else {
        return Err(AllocError);
    };
    lines.extend_from_slice(behind)?;
    Ok(lines)
}

// The line of files of elements that a table wasn't made with.
fn given_differences(job: &VerifyJob, there: &TableThere) -> Result<Vec<u8>, AllocError>
    ensures { IfOk result
        (λ lines. lines.items ≡ given_differ job.now (there_value there.now).said) }
{
    let mut lines = Vec::new(job.alloc);
    let said: &[FileReceipt] = &there.receipt.elements;
    match write_element_differences(job.element_files, said, &mut lines) {
        Ok(()) => Ok(lines),
        Err(_) => Err(AllocError),
    }
}

// The lines of files of maps that a table wasn't made with.
fn file_differences(
    alloc: Global,
    maps: &MapsOfPlan,
    there: &TableThere,
) -> Result<Vec<u8>, AllocError>
    ensures { IfOk result
        (λ lines. lines.items ≡ files_differ maps.now (there_value there.now).said) }
{
    let mut lines = Vec::new(alloc);
    let said: &[FileReceipt] = &there.receipt.maps;
    match write_map_differences(&maps.files, said, &mut lines) {
        Ok(()) => Ok(lines),
        Err(_) => Err(AllocError),
    }
}

fn write_again_fault<E: WriteLines>(fault: AgainFault, err: &mut E) -> io::Result<()>
    ensures { Tells E.lines err.old err.new result (again_fault_line fault) }
{
    match fault {
        AgainFault::NotMade(RemakeFault::Collect(fault)) => write_collect_fault(fault, err),
        AgainFault::NotMade(RemakeFault::Run(fault)) => write_run_fault(fault, err),
        AgainFault::OutOfMemory => write_fault("verify", 1, "OutOfMemory", err),
    }
}
