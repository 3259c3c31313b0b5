//! Which files of a period are left out of its table: as long as some sum of all others is too large, the one that has most of it.

ghost use Rattle.std.specs.Prelude.{◌≡◌, ◌++◌, List, All, IfErr, IfOk, OnOk};
ghost use Rattle.std.specs.List.{AllZip};
ghost use Rattle.ipfix_message.specs.declared.record.DataRecord.{DataRecord};
ghost use Rattle.flow_table.specs.Fitting.{FitsPlan};
ghost use Rattle.flow_table.specs.Tables.{IsTable};
ghost use Rattle.period_collect.specs.LeftOutFiles.{places_at};
ghost use Rattle.period_collect.specs.MadeTables.{HasNoRest};
ghost use Rattle.period_collect.specs.Parting.{AreOut, HasOwnTable, HaveOwnTables, IsKept, LeavesOut};
ghost use Rattle.period_collect.specs.Paths.{texts_of};

use crate::exporters::exporters_of;
use crate::maker::TableMaker;
use crate::places::place_at;
use crate::table_maker::job_with;
use command_collect::collect_job;
use flow_collect::CollectFault;
use flow_table::{FlatTable, Plan};
use input_sources::{NotOpened, OpenSource, OpenedAll, open_all};
use ipfix_session::Source;
use largest_sessions::left_out;
use report_writing::{NOTHING_MORE, Status, WriteLines, write_not_had_because};
use std::alloc::{AllocError, Global};
use std::io::Stderr;
use std::rt::Clock;
use std::sync::Wait;
use std::thread::Threads;

/// The tables of files, each by itself.
#[derive(Drop)]
pub(crate) struct OwnTables {
    pub tables: Vec<FlatTable>,
    /// The places of these files among all.
    pub places: Vec<usize>,
    /// The places of the others, of which a sum is too large by itself.
    pub others: Vec<usize>,
}

/// The places of the files of these paths that are left out, in the order in which they go: first those of which a sum is
/// too large by itself, and then as [`left_out`] says of the others. The paths are in the order of their names.
///
/// `NotOpened` if one can't be opened, which a line says; `Failed` if one can't be collected, or memory runs out.
pub(crate) fn files_left_out<
    S: Source + Send + Drop,
    O: OpenSource<S>,
    E: WriteLines,
    R: Clock + Threads + Wait + Sync,
>(threads: &R, maker: &mut TableMaker<'_, S, O, E>, paths: &[&str]) -> Result<Vec<usize>, Status>
    ensures out { IfOk result (λ out. LeavesOut maker.old maker.new (texts_of paths.now) out.items) }
    ensures err { IfErr result HasNoRest }
    ensures job { maker.new.job ≡ maker.old.job }
{
    let own = own_tables(threads, maker, paths)?;
    match places_out(maker.alloc, maker.job.collect.plan, own) {
        Ok(out) => Ok(out),
        Err(AllocError) => Err(Status::Failed),
    }
}

// Those of which a sum is too large by itself, and then those that are left out of the others.
fn places_out(alloc: Global, plan: &Plan, own: OwnTables) -> Result<Vec<usize>, AllocError>
    requires { All (FitsPlan plan.now) own.tables.items }
    ensures { IfOk result (λ out. (lists : List (List DataRecord))
        → AllZip (IsTable plan.now) lists own.tables.items → AreOut plan.now own lists out.items) }
{
    let OwnTables {
        tables,
        places,
        others,
    } = own;
    let left = left_out(alloc, plan, tables)?;
    add_places(others, &places, &left)
}

/// These places, and then those at some indices.
pub(crate) fn add_places(
    mut all: Vec<usize>,
    places: &[usize],
    indices: &[usize],
) -> Result<Vec<usize>, AllocError>
    ensures { IfOk result (λ added. added.items ≡ all.items ++ places_at places.now indices.now) }
{
    for index in indices {
        all.push(place_at(places, *index))?;
    }
    Ok(all)
}

// The tables of all files, each by itself.
fn own_tables<
    S: Source + Send + Drop,
    O: OpenSource<S>,
    E: WriteLines,
    R: Clock + Threads + Wait + Sync,
>(threads: &R, maker: &mut TableMaker<'_, S, O, E>, paths: &[&str]) -> Result<OwnTables, Status>
    ensures own { IfOk result (HaveOwnTables maker.old maker.new (texts_of paths.now)) }
    ensures err { IfErr result HasNoRest }
    ensures job { maker.new.job ≡ maker.old.job }
{
    let alloc = maker.alloc;
    let mut own = OwnTables {
        tables: Vec::new(alloc),
        places: Vec::new(alloc),
        others: Vec::new(alloc),
    };
    for place in 0..paths.len() {
        let table = own_table(threads, maker, paths[place])?;
        let Ok(()) = keep(&mut own, place, table) else {
            return Err(Status::Failed);
        };
    }
    Ok(own)
}

// Keeps the table of the file of a place.
fn keep(own: &mut OwnTables, place: usize, table: Option<FlatTable>) -> Result<(), AllocError>
    ensures { OnOk result (IsKept place table own.old own.new) }
{
    let Some(table) = table else {
        own.others.push(place)?;
        return Ok(());
    };
    own.tables.push(table)?;
    own.places.push(place)?;
    Ok(())
}

/// The table of a file by itself, unless a sum is too large. `NotOpened` if it can't be opened, which a line says; `Failed`
/// if it can't be collected, or memory runs out.
pub(crate) fn own_table<
    S: Source + Send + Drop,
    O: OpenSource<S>,
    E: WriteLines,
    R: Clock + Threads + Wait + Sync,
>(threads: &R, maker: &mut TableMaker<'_, S, O, E>, path: &str) -> Result<Option<FlatTable>, Status>
    ensures own { IfOk result (HasOwnTable maker.old maker.new path.now) }
    ensures err { IfErr result HasNoRest }
    ensures job { maker.new.job ≡ maker.old.job }
{
    let alloc = maker.alloc;
    let paths = [path];
    let Ok(exporters) = exporters_of(alloc, &paths) else {
        return Err(Status::Failed);
    };
    let job = job_with(&maker.job.collect, &exporters);
    let progress: Option<Stderr> = None;
    let (opening, err) = (&mut maker.opening, &mut maker.err);
    match open_all(threads, alloc, opening, &paths, progress, NOTHING_MORE, err) {
        Ok(OpenedAll { sources, origins }) => {
            let sources = sources.into_sources();
            match collect_job(threads, alloc, sources, &origins, &job) {
                Ok(gathered) => Ok(Some(gathered.run.table)),
                Err(failure) => match failure.fault {
                    CollectFault::SumTooLarge => Ok(None),
                    _ => Err(Status::Failed),
                },
            }
        }
        Err(NotOpened { path, reason }) => {
            let _ = write_not_had_because(NOTHING_MORE, "open", path, reason, err);
            Err(Status::NotOpened)
        }
    }
}
