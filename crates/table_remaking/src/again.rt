//! Making the table of a receipt again.

ghost use Rattle.std.specs.Prelude.{◌≡◌, IfErr, IfOk};
ghost use Rattle.report_writing.specs.Writing.{Tells};
ghost use Rattle.table_receipts.specs.Values.{table_value};
ghost use Rattle.receipt_differences.specs.Orders.{IsOrderOf};
ghost use Rattle.table_remaking.specs.Again.{IsCompared, IsJobOf, IsNotMade, format_of as format, remaking_differs, said_by};
ghost use Rattle.table_remaking.specs.Faults.{IsDue};

use command_collect::{CollectJob, Engine, MadeWith, Remade, RemakeFault, remake};
use flow_export::Format;
use flow_maps::Maps;
use flow_plan_fields::{refuses_sampled, wanted_context, wanted_options};
use flow_times::TimeNoting;
use input_sources::LoadedPlan;
use ipfix_session::Source;
use output_tables::Output;
use receipt_differences::{
    in_order, write_remade_differences, write_table_differences, write_text_difference,
};
use report_writing::{NOTHING_MORE, Origin, WriteLines};
use std::alloc::{AllocError, Global};
use std::io;
use std::net::IpAddr;
use std::sync::Wait;
use std::thread::Threads;
use table_receipts::{InputReceipt, Receipt, TableFormat, TableReceipt};

/// A table that is there, and its receipt.
#[derive(Clone, Copy)]
pub struct TableThere<'a> {
    pub receipt: &'a Receipt,
    pub table: &'a [u8],
}

/// What the table of a receipt is made again by.
#[derive(Drop)]
pub struct MadeBy {
    /// The plan in the receipt.
    pub loaded: LoadedPlan,
    /// The maps that the plan names, if it names some.
    pub maps: Option<Maps>,
    /// The exporter that is told of each source, if one is, by its place.
    pub exporters: Vec<Option<IpAddr>>,
}

/// Why a table wasn't compared with the one that is made again.
#[derive(Clone, Copy, Debug, PartialEq, Eq)]
pub enum AgainFault {
    /// It can't be made again.
    NotMade(RemakeFault),
    /// Memory was refused for the lines.
    OutOfMemory,
}

/// Makes the table of a receipt again of these sources, by its plan, its maps and these exporters, and answers a line for
/// each thing that differs: none if nothing does.
pub fn compare_again<S: Source + Send + Drop, R: Threads + Wait + Sync>(
    rt: &R,
    alloc: Global,
    sources: Vec<S>,
    origins: &[Origin],
    by: &MadeBy,
    there: &TableThere,
) -> Result<Vec<u8>, AgainFault>
    ensures compared { IfOk result (λ lines. IsCompared S.seen by.now (said_by there.now)
        sources.items origins.now there.now.table.now lines.items) }
    ensures fault { IfErr result (IsDue S.seen by.now (said_by there.now) sources.items origins.now) }
{
    let job = collect_job(by, &there.receipt.table);
    match remake(rt, alloc, sources, origins, &job, made_with_nothing(alloc)) {
        Ok(remade) => match lines_of(alloc, there, &remade) {
            Ok(lines) => Ok(lines),
            Err(AllocError) => Err(AgainFault::OutOfMemory),
        },
        Err(fault) => Err(AgainFault::NotMade(fault)),
    }
}

// (these aren't compared with what a receipt says)
fn made_with_nothing(alloc: Global) -> MadeWith {
    MadeWith {
        collectd: String::new(alloc),
        plan: String::new(alloc),
        elements: Vec::new(alloc),
        maps: Vec::new(alloc),
        left_out: Vec::new(alloc),
    }
}

// What a run is to do that makes the table again.
fn collect_job<'a>(by: &'a MadeBy, said: &TableReceipt) -> CollectJob<'a>
    ensures { IsJobOf by.now (table_value said.now) result }
{
    let loaded = &by.loaded;
    CollectJob {
        elements: &loaded.elements,
        plan: &loaded.read.plan,
        engine: Engine::Lots(1),
        output: Output {
            format: format_of(said.format),
            time: said.time,
        },
        verbosity: NOTHING_MORE,
        wanted: wanted_context(&loaded.read, &loaded.maps),
        options: wanted_options(&loaded.read),
        maps: by.maps.as_ref(),
        estimates: loaded.estimates.as_ref(),
        refuses_sampled: refuses_sampled(&loaded.read),
        times: TimeNoting::Nothing,
        great_counters: None,
        templates: None,
        filter: loaded.read.conditions(),
        exporters: by.exporters.as_slice(),
    }
}

fn format_of(said: TableFormat) -> Format
    ensures { result ≡ format said }
{
    match said {
        TableFormat::Csv => Format::Csv,
        TableFormat::Json => Format::Json,
        TableFormat::Ipfix => Format::Ipfix,
    }
}

// The lines of what differs.
fn lines_of(alloc: Global, there: &TableThere, remade: &Remade) -> Result<Vec<u8>, AllocError>
    ensures { IfOk result (λ lines. lines.items ≡ remaking_differs there.now remade.now) }
{
    let inputs = in_order(alloc, &there.receipt.inputs)?;
    let files = in_order(alloc, &remade.receipt.inputs)?;
    let mut lines = Vec::new(alloc);
    match write_differences(there, remade, &inputs, &files, &mut lines) {
        Ok(()) => Ok(lines),
        Err(_) => Err(AllocError),
    }
}

fn write_differences<E: WriteLines>(
    there: &TableThere,
    remade: &Remade,
    inputs: &[&InputReceipt],
    files: &[&InputReceipt],
    err: &mut E,
) -> io::Result<()>
    requires of_inputs { IsOrderOf there.now.receipt.now.inputs.items inputs.now }
    requires of_files { IsOrderOf remade.now.receipt.inputs.items files.now }
    ensures { Tells E.lines err.old err.new result (remaking_differs there.now remade.now) }
{
    let said = there.receipt;
    write_table_differences(&said.table, there.table, err)?;
    write_remade_differences(&remade.receipt, said, inputs, files, err)?;
    write_text_difference(remade.text.as_slice(), there.table, err)
}
