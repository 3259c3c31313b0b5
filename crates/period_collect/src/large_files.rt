//! Which files of a period are left out of its table since they have too many rows.

ghost use Rattle.std.specs.Prelude.{◌≡◌, IfErr, IfOk, IfSome};
ghost use Rattle.period_collect.specs.ManyRows.{AreLeftOutForRows, FindsLarge, HasRowsAlone, LeavesOutForRows, SaysRows, row_count};
ghost use Rattle.period_collect.specs.MadeTables.{HasNoRest, LacksRows};
ghost use Rattle.period_collect.specs.Paths.{texts_of};

use crate::maker::TableMaker;
use crate::parting::{add_places, own_table};
use crate::paths::{paths_of, words_of};
use crate::places::{kept_of, kept_places};
use crate::telling::tell_large;
use flow_table::FlatTable;
use input_sources::OpenSource;
use ipfix_session::Source;
use recording_names::Period;
use report_writing::{Status, WriteLines};
use std::alloc::Global;
use std::rt::Clock;
use std::sync::Wait;
use std::thread::Threads;
use table_receipts::read_receipt;

/// The places of the files that are left out since they have too many rows, beside those of some places, of which lines
/// tell: if a table without those, which has this receipt, has more rows than a session may have, each file that is in it
/// and has more by itself.
pub(crate) fn leave_out_large<
    S: Source + Send + Drop,
    O: OpenSource<S>,
    E: WriteLines,
    R: Clock + Threads + Wait + Sync,
>(
    threads: &R,
    maker: &mut TableMaker<'_, S, O, E>,
    period: Period,
    files: &[String],
    out: &[usize],
    receipt: &[u8],
) -> Result<Vec<usize>, Status>
    ensures lot { IfOk result (λ lot. LeavesOutForRows maker.old maker.new
        period.begins files.now out.now receipt.now lot.items) }
    ensures err { IfErr result (LacksRows maker.old maker.new receipt.now) }
    ensures job { maker.new.job ≡ maker.old.job }
{
    let alloc = maker.alloc;
    let Some(rows) = rows_said(alloc, receipt) else {
        return Err(Status::Failed);
    };
    if rows <= maker.job.rows_of_a_session {
        return Ok(Vec::new(alloc));
    }
    leave_out_those(threads, maker, period, files, out)
}

// The rows of the table that has a receipt of this text, unless memory runs out.
fn rows_said(alloc: Global, receipt: &[u8]) -> Option<u64>
    ensures { IfSome result (SaysRows receipt.now) }
{
    let Ok(text) = str::from_utf8(receipt) else {
        return None;
    };
    match read_receipt(alloc, text) {
        Ok(receipt) => Some(receipt.table.rows),
        Err(_) => None,
    }
}

// Of all files but those of some places, those that have too many rows by themselves.
fn leave_out_those<
    S: Source + Send + Drop,
    O: OpenSource<S>,
    E: WriteLines,
    R: Clock + Threads + Wait + Sync,
>(
    threads: &R,
    maker: &mut TableMaker<'_, S, O, E>,
    period: Period,
    files: &[String],
    out: &[usize],
) -> Result<Vec<usize>, Status>
    ensures lot { IfOk result (λ lot. AreLeftOutForRows maker.old maker.new
        period.begins files.now out.now lot.items) }
    ensures err { IfErr result HasNoRest }
    ensures job { maker.new.job ≡ maker.old.job }
{
    let alloc = maker.alloc;
    let Ok(paths) = paths_of(alloc, maker.job.recordings, period, files) else {
        return Err(Status::Failed);
    };
    let Ok(words) = words_of(alloc, &paths) else {
        return Err(Status::Failed);
    };
    let Ok(kept) = kept_of(alloc, &words, out) else {
        return Err(Status::Failed);
    };
    let Ok(places) = kept_places(alloc, words.len(), out) else {
        return Err(Status::Failed);
    };
    let large = large_files(threads, maker, &kept)?;
    let Ok(lot) = add_places(Vec::new(alloc), &places, &large) else {
        return Err(Status::Failed);
    };
    tell_large(maker.job.rows_of_a_session, &words, &lot, &mut maker.err);
    Ok(lot)
}

// The places of those of these files that have too many rows by themselves.
fn large_files<
    S: Source + Send + Drop,
    O: OpenSource<S>,
    E: WriteLines,
    R: Clock + Threads + Wait + Sync,
>(threads: &R, maker: &mut TableMaker<'_, S, O, E>, paths: &[&str]) -> Result<Vec<usize>, Status>
    ensures large { IfOk result (λ lot. FindsLarge maker.old maker.new (texts_of paths.now) lot.items) }
    ensures err { IfErr result HasNoRest }
    ensures job { maker.new.job ≡ maker.old.job }
{
    let mut large = Vec::new(maker.alloc);
    for place in 0..paths.len() {
        let rows = own_rows(threads, maker, paths[place])?;
        if rows > maker.job.rows_of_a_session {
            let Ok(()) = large.push(place) else {
                return Err(Status::Failed);
            };
        }
    }
    Ok(large)
}

// How many rows a file has by itself. Where a sum is too large it has no table, and no row.
fn own_rows<
    S: Source + Send + Drop,
    O: OpenSource<S>,
    E: WriteLines,
    R: Clock + Threads + Wait + Sync,
>(threads: &R, maker: &mut TableMaker<'_, S, O, E>, path: &str) -> Result<u64, Status>
    ensures rows { IfOk result (HasRowsAlone maker.old maker.new path.now) }
    ensures err { IfErr result HasNoRest }
    ensures job { maker.new.job ≡ maker.old.job }
{
    let table = own_table(threads, maker, path)?;
    Ok(rows_of(&table))
}

// How many rows a table has, if there is one.
fn rows_of(table: &Option<FlatTable>) -> u64
    ensures { result ≡ row_count table.now }
{
    match table {
        Some(table) => table.len() as u64,
        None => 0,
    }
}
