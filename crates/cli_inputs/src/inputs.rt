//! What a command reads before its input, and where its table goes.

use crate::arguments::{CollectArguments, ShowProgress, TableArguments};
use crate::progress_output::{ProgressOutput, open_terminal};
use crate::receipts::{PlanAndReceipt, ReceiptTo, load_with_receipt};
use crate::timers::ask_for_short_sleeps;
use flow_export::ExportFault;
use flow_maps::Maps;
use input_files::{ReadText, load_elements};
use input_sources::{LoadedPlan, WithReason, load_plan};
use output_tables::write_export_fault;
use report_writing::{CheckedWriter, Status};
use std::fs::File;
use std::io::{BufWriter, Stderr, Stdout, Write};

/// The octets that are gathered before they are written.
const OUTPUT_BUFFER: usize = 1 << 16;

/// Standard output through a buffer. Only memory can be refused here.
pub fn buffered_output(rt: &HostRuntime) -> Option<BufWriter<WithReason<Stdout>>> {
    let output = WithReason::new(rt.stdout());
    BufWriter::with_capacity(rt.alloc(), OUTPUT_BUFFER, output).ok()
}

/// The same for a table. If there is none, `err` has a line.
pub fn table_output(
    rt: &HostRuntime,
    err: &mut Stderr,
) -> Result<BufWriter<WithReason<Stdout>>, Status> {
    let Some(out) = buffered_output(rt) else {
        let _ = write_export_fault(ExportFault::OutOfMemory, err);
        return Err(Status::Failed);
    };
    Ok(out)
}

/// The plan of a table, and the files of elements by which it is read. If a file has a fault, or there is no plan,
/// standard error has a line.
pub fn load_table_plan(rt: &HostRuntime, arguments: &TableArguments) -> Option<LoadedPlan> {
    load_from(rt, rt, arguments)
}

/// The same from texts that are had so.
pub fn load_from<T: ReadText>(
    rt: &HostRuntime,
    texts: &T,
    arguments: &TableArguments,
) -> Option<LoadedPlan> {
    let verbosity = arguments.verbosity;
    let mut err = CheckedWriter::new(rt.stderr());
    let files = arguments.element_files;
    let elements = load_elements(texts, rt.alloc(), files, verbosity, &mut err)?;
    load_plan(
        texts,
        rt.alloc(),
        elements,
        arguments.plan,
        verbosity,
        &mut err,
    )
}

/// What `files` and `tcp` both collect by, and where their table and their progress go.
#[derive(Drop)]
pub struct Collecting<'r> {
    /// The plan, with the elements by which it names its keys and counters, and texts name them again.
    pub loaded: LoadedPlan,
    /// The plan's maps, if it names some.
    pub maps: Option<Maps>,
    pub out: BufWriter<WithReason<Stdout>>,
    /// Where the receipt is put, and what it says beside the run, if there is to be one.
    pub receipt: Option<ReceiptTo<'r>>,
    /// The terminal, if progress is shown there and there is one.
    pub terminal: Option<File>,
}

/// All of that. Threads that are started from now on sleep as exactly as the system can.
pub fn prepare_collecting<'r>(
    rt: &'r HostRuntime,
    arguments: &CollectArguments,
    err: &mut Stderr,
) -> Result<Collecting<'r>, Status> {
    check_limit(arguments, err)?;
    let PlanAndReceipt {
        loaded,
        maps,
        receipt,
    } = load_with_receipt(rt, arguments, err)?;
    let out = table_output(rt, err)?;
    ask_for_short_sleeps(rt);
    let terminal = match arguments.progress {
        ShowProgress::OnTerminal => open_terminal(rt),
        ShowProgress::Nowhere | ShowProgress::OnStandardError => None,
    };
    Ok(Collecting {
        loaded,
        maps,
        out,
        receipt,
        terminal,
    })
}

// Sees to it that there is to be no receipt if templates have a limit, which no receipt tells. If not, `err` has a line.
fn check_limit(arguments: &CollectArguments, err: &mut Stderr) -> Result<(), Status> {
    if arguments.templates.is_some() && arguments.receipt.is_some() {
        let _ = writeln!(err, "error: --receipt can't be given with --templates");
        return Err(Status::NotOpened);
    }
    Ok(())
}

/// Where progress is written: on this terminal, if it is shown on one.
pub fn progress_writer<'a>(
    progress: ShowProgress,
    terminal: &'a Option<File>,
    rt: &HostRuntime,
) -> Option<ProgressOutput<'a>> {
    match progress {
        ShowProgress::Nowhere => None,
        ShowProgress::OnTerminal => terminal.as_ref().map(ProgressOutput::Terminal),
        ShowProgress::OnStandardError => Some(ProgressOutput::StandardError(rt.stderr())),
    }
}
