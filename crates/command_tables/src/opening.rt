//! What the command needs before its first round.

ghost use Rattle.std.specs.Prelude.{◌≡◌, None, IfErr, IfOk, OnOk, bytes_eq, map};
ghost use Rattle.std.specs.List.{list_any};
ghost use Rattle.std.specs.Option.{option_map};
ghost use Rattle.cli_inputs.specs.Formats.{format_word};
ghost use Rattle.command_collect.specs.Engines.{due_fault};
ghost use Rattle.report_writing.specs.Told.{AreToldTo};
ghost use Rattle.report_writing.specs.Writing.{Tells};
ghost use Rattle.command_tables.specs.Opening.{AreNamed, AreNotNamed, ArePlansOf, HaveOneNameless, IsFolderName, IsNameless, IsRefused, is_hidden as begins_hidden, name_twice, names_of, nameless_line, plan_line, twice_line};

use cli_inputs::{WITH_REASONS, tell_folder};
use command_collect::{Engine, write_collect_fault};
use flow_export::Format;
use recording_folder::{Folder, open_folder};
use report_writing::{Reason, Status, WriteLines, write_not_had, write_not_had_because};
use std::alloc::Global;
use std::io::{self, Stderr};
use tables_folder::{PlanFault, plan_name};

/// Sees to it that the engine can collect from a file. If it can't, `err` has a line.
pub(crate) fn check_engine<E: WriteLines>(engine: Engine, err: &mut E) -> Result<(), Status>
    ensures ok { OnOk result (due_fault engine 1 ≡ None) }
    ensures err { IfErr result (IsRefused E.lines err.old err.new engine) }
    ensures silent { OnOk result (err.new ≡ err.old) }
{
    match engine.refusal(1) {
        Some(fault) => {
            let _ = write_collect_fault(fault, err);
            Err(Status::Failed)
        }
        None => Ok(()),
    }
}

/// A plan by its path, and the name that the folder of its tables has.
#[derive(Clone, Copy)]
pub(crate) struct NamedPlan<'p> {
    pub path: &'p str,
    pub name: &'p str,
}

/// Names the plans of these paths, in their order. If one has no name, or two have the same, `err` has a line.
pub(crate) fn name_plans<'p, E: WriteLines>(
    alloc: Global,
    paths: &[&'p str],
    err: &mut E,
) -> Result<Vec<NamedPlan<'p>>, Status>
    ensures ok { IfOk result (λ plans. AreNamed paths.now plans.items) }
    ensures err { IfErr result (AreNotNamed E.lines err.old err.new paths.now) }
    ensures silent { OnOk result (err.new ≡ err.old) }
{
    let plans = name_each(alloc, paths, err)?;
    match first_twice(&plans) {
        Some(name) => {
            let _ = write_twice(name, err);
            Err(Status::NotOpened)
        }
        None => Ok(plans),
    }
}

fn name_each<'p, E: WriteLines>(
    alloc: Global,
    paths: &[&'p str],
    err: &mut E,
) -> Result<Vec<NamedPlan<'p>>, Status>
    ensures ok { IfOk result (λ plans. ArePlansOf paths.now plans.items) }
    ensures err { IfErr result (HaveOneNameless E.lines err.old err.new paths.now) }
    ensures silent { OnOk result (err.new ≡ err.old) }
{
    let mut plans = Vec::new(alloc);
    for path in paths {
        let name = name_of_plan(*path, err)?;
        let Ok(()) = plans.push(NamedPlan { path: *path, name }) else {
            return Err(Status::Failed);
        };
    }
    Ok(plans)
}

// The first name that stands again after it.
fn first_twice<'p>(mut plans: &[NamedPlan<'p>]) -> Option<&'p str>
    ensures { option_map (λ name. name.now) result
        ≡ name_twice (names_of plans.entry.now) }
{
    while let [plan, rest @ ..] = plans {
        if is_among(plan.name, rest) {
            return Some(plan.name);
        }
        plans = rest;
    }
    None
}

fn is_among(name: &str, mut plans: &[NamedPlan]) -> bool
    ensures { result ≡ list_any (bytes_eq name.now) (map (λ plan. plan.name.now) plans.entry.now) }
{
    while let [other, rest @ ..] = plans {
        if name == other.name {
            return true;
        }
        plans = rest;
    }
    false
}

#[tactic(auto, unfolding(crate::specs::Opening::twice_line))]
fn write_twice<E: WriteLines>(name: &str, err: &mut E) -> io::Result<()>
    ensures { Tells E.lines err.old err.new result (twice_line name.now) }
{
    writeln!(err, "error: two plans have the name '{name}'")
}

// The name of a plan by its path. If it has none, `err` has a line.
fn name_of_plan<'p, E: WriteLines>(path: &'p str, err: &mut E) -> Result<&'p str, Status>
    ensures ok { IfOk result (λ name. IsFolderName path.now name.now) }
    ensures err { IfErr result (IsNameless E.lines err.old err.new path.now) }
    ensures silent { OnOk result (err.new ≡ err.old) }
{
    match plan_name(path) {
        Some(name) if !is_hidden(name) => Ok(name),
        _ => {
            let _ = write_nameless(path, err);
            Err(Status::NotOpened)
        }
    }
}

// Whether a name begins with a full stop.
fn is_hidden(name: &str) -> bool
    ensures { result ≡ begins_hidden name.now }
{
    match name.as_bytes() {
        [first, ..] => *first == b'.',
        [] => false,
    }
}

#[tactic(auto, unfolding(crate::specs::Opening::nameless_line))]
fn write_nameless<E: WriteLines>(path: &str, err: &mut E) -> io::Result<()>
    ensures { Tells E.lines err.old err.new result (nameless_line path.now) }
{
    writeln!(err, "error: the plan '{path}' has no name for a folder")
}

/// The folder of tables, locked. If it can't be opened, `err` has a line.
pub(crate) fn open_tables(rt: &HostRuntime, path: &str, err: &mut Stderr) -> Result<Folder, Status>
    ensures err { IfErr result (λ status. status ≡ Status.NotOpened) }
{
    match open_folder(rt, rt.alloc(), path) {
        Ok(folder) => Ok(folder),
        Err(fault) => {
            tell_folder(path, &fault, err);
            Err(Status::NotOpened)
        }
    }
}

/// What the names of tables end with.
pub(crate) fn ending_of(format: Format) -> &'static str
    ensures { result.now ≡ format_word format }
{
    match format {
        Format::Csv => "csv",
        Format::Ipfix => "ipfix",
        Format::Json => "json",
    }
}

/// Writes why the tables of a plan can't be put, and answers how the command ends then.
pub(crate) fn tell_plan<E: WriteLines>(
    into: &str,
    name: &str,
    fault: &PlanFault,
    err: &mut E,
) -> Status
    ensures status { result ≡ Status.NotOpened }
    ensures told { AreToldTo E.lines err.old err.new
        (plan_line into.now name.now fault.now) }
{
    let _ = write_plan(into, name, fault, err);
    Status::NotOpened
}

fn write_plan<E: WriteLines>(
    into: &str,
    name: &str,
    fault: &PlanFault,
    err: &mut E,
) -> io::Result<()>
    ensures { Tells E.lines err.old err.new result
        (plan_line into.now name.now fault.now) }
{
    match fault {
        PlanFault::OtherPlan => write_not_had("tables of another plan", name, err),
        PlanFault::NotHad(error) => {
            write_not_had_because(WITH_REASONS, "folder", into, Reason::of(error), err)
        }
    }
}
