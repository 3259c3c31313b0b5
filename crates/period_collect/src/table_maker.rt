//! Making the table of files, as `files --direct --receipt` does.

ghost use Rattle.std.specs.Prelude.{◌≡◌, ◌<◌, length, IfErr, IfOk, OnErr};
ghost use Rattle.period_collect.specs.MadeTables.{EndsWith, EndsWithout, EndsWithoutSome, HasNoRest, HasNoTable, IsNotMade, IsRun, IsTableOf, IsTried, LeavesOutMore};
ghost use Rattle.period_collect.specs.Parting.{IsParted, IsSameLeftOut};

use crate::exporters::exporters_of;
use crate::kept_receipt::KeptReceipt;
use crate::large_files::leave_out_large;
use crate::made_again::same_made;
use crate::maker::{MadeTable, TableMaker};
use crate::parting::files_left_out;
use crate::paths::{paths_of, words_of};
use crate::places::{kept_of, kept_places, path_at, place_at};
use crate::telling::{tell_left_out, write_same};
use command_collect::{CollectJob, Ended, Hindrance, Receipted, run_files_receipted};
use input_sources::OpenSource;
use ipfix_session::Source;
use recording_names::Period;
use report_writing::{Status, WriteLines};
use std::alloc::{AllocError, Global};
use std::io::Stderr;
use std::net::IpAddr;
use std::rt::Clock;
use std::sync::Wait;
use std::thread::Threads;

/// The table of these files of a period, and its receipt, as [`run_files_receipted`] makes them, where the exporters are
/// those that the names of the files say. If the files hinder a table, it is that of the rest: those that have most of a
/// sum which is too large are left out, and the later of two with the same octets. If it has more rows than a session may
/// have, those that have more by themselves are left out, too. Lines and the receipt name them, and the table has a
/// fault, since it isn't complete. The files are in the order of their names.
///
/// An `Err` is the status with which that ended; then `err` has the lines that say why, unless memory ran out before.
pub fn make_table<
    S: Source + Send + Drop,
    O: OpenSource<S>,
    E: WriteLines,
    R: Clock + Threads + Wait + Sync,
>(
    threads: &R,
    maker: &mut TableMaker<'_, S, O, E>,
    period: Period,
    files: &[String],
) -> Result<MadeTable, Status>
    ensures table { IfOk result (IsTableOf maker.old maker.new period.begins files.now) }
    ensures err { IfErr result (IsNotMade maker.old maker.new period.begins files.now) }
    ensures job { maker.new.job ≡ maker.old.job }
{
    let mut out = Vec::new(maker.alloc);
    while out.is_empty() || out.len() < files.len() {
        match table_of_rest(threads, maker, period, files, &out)? {
            Tried::Stands(table) => return Ok(table),
            Tried::Without(mut lot) => {
                let Ok(()) = out.append(&mut lot) else {
                    return Err(Status::Failed);
                };
            }
        }
    }
    Err(Status::Failed)
}

/// What a run gave.
#[derive(Drop)]
pub(crate) enum Tried {
    /// The table that stands.
    Stands(MadeTable),
    /// The places of files without which it is made again.
    Without(Vec<usize>),
}

// Makes the table without the files of some places.
fn table_of_rest<
    S: Source + Send + Drop,
    O: OpenSource<S>,
    E: WriteLines,
    R: Clock + Threads + Wait + Sync,
>(
    threads: &R,
    maker: &mut TableMaker<'_, S, O, E>,
    period: Period,
    files: &[String],
    out: &[usize],
) -> Result<Tried, Status>
    ensures tried { IfOk result (IsTried maker.old maker.new period.begins files.now out.now) }
    ensures err { IfErr result (HasNoTable maker.old maker.new period.begins files.now out.now) }
    ensures job { maker.new.job ≡ maker.old.job }
{
    let Ok(ended) = run_period(threads, maker, period, files, out) else {
        return Err(Status::Failed);
    };
    if let Some(hindrance) = ended.hindrance {
        let lot = leave_out(threads, maker, period, files, out, hindrance)?;
        return Ok(Tried::Without(lot));
    }
    let table = table_without(ended, out)?;
    let lot = leave_out_large(threads, maker, period, files, out, &table.receipt)?;
    if lot.is_empty() {
        return Ok(Tried::Stands(table));
    }
    Ok(Tried::Without(lot))
}

// The places of the files that are left out beside those of some places, of which lines tell: at least one.
fn leave_out<
    S: Source + Send + Drop,
    O: OpenSource<S>,
    E: WriteLines,
    R: Clock + Threads + Wait + Sync,
>(
    threads: &R,
    maker: &mut TableMaker<'_, S, O, E>,
    period: Period,
    files: &[String],
    out: &[usize],
    hindrance: Hindrance,
) -> Result<Vec<usize>, Status>
    ensures lot { IfOk result (λ lot. LeavesOutMore maker.old maker.new
        period.begins files.now out.now lot.items hindrance) }
    ensures some { IfOk result (λ lot. 0 < length lot.items) }
    ensures err { IfErr result HasNoRest }
    ensures job { maker.new.job ≡ maker.old.job }
{
    match hindrance {
        Hindrance::SumTooLarge if out.is_empty() => {
            leave_out_largest(threads, maker, period, files)
        }
        Hindrance::SumTooLarge => Err(Status::Failed),
        Hindrance::InputTwice(first, second) => {
            match leave_out_same(maker, period, files, out, first, second) {
                Ok(lot) => Ok(lot),
                Err(AllocError) => Err(Status::Failed),
            }
        }
    }
}

// Those that have most of a sum which is too large.
fn leave_out_largest<
    S: Source + Send + Drop,
    O: OpenSource<S>,
    E: WriteLines,
    R: Clock + Threads + Wait + Sync,
>(
    threads: &R,
    maker: &mut TableMaker<'_, S, O, E>,
    period: Period,
    files: &[String],
) -> Result<Vec<usize>, Status>
    ensures out { IfOk result (λ out. IsParted maker.old maker.new period.begins files.now out.items) }
    ensures some { IfOk result (λ out. 0 < length out.items) }
    ensures err { IfErr result HasNoRest }
    ensures job { maker.new.job ≡ maker.old.job }
{
    let alloc = maker.alloc;
    let Ok(paths) = paths_of(alloc, maker.job.recordings, period, files) else {
        return Err(Status::Failed);
    };
    let Ok(words) = words_of(alloc, &paths) else {
        return Err(Status::Failed);
    };
    let out = files_left_out(threads, maker, &words)?;
    tell_left_out(&words, &out, &mut maker.err);
    if out.is_empty() {
        return Err(Status::Failed);
    }
    Ok(out)
}

// The later of two that have the same octets, by their numbers among those that aren't left out.
fn leave_out_same<S: Source, O: OpenSource<S>, E: WriteLines>(
    maker: &mut TableMaker<'_, S, O, E>,
    period: Period,
    files: &[String],
    out: &[usize],
    first: usize,
    second: usize,
) -> Result<Vec<usize>, AllocError>
    ensures lot { IfOk result (λ lot. IsSameLeftOut maker.old maker.new
        period.begins files.now out.now lot.items first second) }
    ensures some { IfOk result (λ lot. 0 < length lot.items) }
    ensures job { maker.new.job ≡ maker.old.job }
{
    let alloc = maker.alloc;
    let paths = paths_of(alloc, maker.job.recordings, period, files)?;
    let words = words_of(alloc, &paths)?;
    let kept = kept_places(alloc, words.len(), out)?;
    let (first, second) = (place_at(&kept, first), place_at(&kept, second));
    let mut lot = Vec::new(alloc);
    lot.push(second)?;
    let (other, path) = (path_at(&words, first), path_at(&words, second));
    let _ = write_same(other, path, &mut maker.err);
    Ok(lot)
}

// The table of a run without the files of some places, if it ended with one.
fn table_without(ended: Ended<Vec<u8>, KeptReceipt>, out: &[usize]) -> Result<MadeTable, Status>
    ensures table { IfOk result (EndsWithoutSome ended out.now) }
    ensures err { IfErr result (EndsWithout ended) }
{
    let table = made_table(ended)?;
    Ok(MadeTable {
        had_fault: table.had_fault || !out.is_empty(),
        ..table
    })
}

// The run of these files of a period, but for those of some places.
fn run_period<
    S: Source + Send + Drop,
    O: OpenSource<S>,
    E: WriteLines,
    R: Clock + Threads + Wait + Sync,
>(
    threads: &R,
    maker: &mut TableMaker<'_, S, O, E>,
    period: Period,
    files: &[String],
    out: &[usize],
) -> Result<Ended<Vec<u8>, KeptReceipt>, AllocError>
    ensures run { IfOk result (IsRun maker.old maker.new period.begins files.now out.now) }
    ensures err { OnErr result (maker.new ≡ maker.old) }
    ensures job { maker.new.job ≡ maker.old.job }
{
    let alloc = maker.alloc;
    let paths = paths_of(alloc, maker.job.recordings, period, files)?;
    let words = words_of(alloc, &paths)?;
    let kept = kept_of(alloc, &words, out)?;
    let exporters = exporters_of(alloc, &kept)?;
    let made = same_made(alloc, maker.job.made, &words, out)?;
    let to = Receipted {
        out: Vec::new(alloc),
        made,
        place: KeptReceipt::new(alloc),
    };
    let job = job_with(&maker.job.collect, &exporters);
    let progress: Option<Stderr> = None;
    let (opening, err) = (&mut maker.opening, &mut maker.err);
    let ended = run_files_receipted(threads, alloc, opening, &kept, &job, progress, to, err);
    Ok(ended)
}

// The same job with these exporters.
pub(crate) fn job_with<'a>(job: &CollectJob<'a>, exporters: &'a [Option<IpAddr>]) -> CollectJob<'a>
    ensures { result ≡ record job.now { exporters = exporters.entry } }
{
    CollectJob { exporters, ..*job }
}

// The table of a run, if it ended with one.
fn made_table(ended: Ended<Vec<u8>, KeptReceipt>) -> Result<MadeTable, Status>
    ensures table { IfOk result (EndsWith ended) }
    ensures err { IfErr result (EndsWithout ended) }
{
    let Ended {
        status,
        out,
        place,
        ..
    } = ended;
    match (status, place.text) {
        (Status::Well, Some(receipt)) => Ok(MadeTable {
            text: out,
            receipt,
            had_fault: false,
        }),
        (Status::SessionFault, Some(receipt)) => Ok(MadeTable {
            text: out,
            receipt,
            had_fault: true,
        }),
        (Status::NotOpened, _) => Err(Status::NotOpened),
        (Status::Failed, _) | (_, None) => Err(Status::Failed),
    }
}
