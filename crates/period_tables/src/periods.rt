//! Taking periods one after another.

ghost use Rattle.period_tables.specs.Taking.{Takes, TakesEach, TakesNext};

use crate::desk::Work;
use crate::place::TablePlace;
use crate::recordings::Recordings;
use crate::telling::{status_of_reason, tell_unlisted, worse_of};
use crate::work::{Round, take_and_tell};
use input_sources::OpenSource;
use ipfix_session::Source;
use period_collect::TableMaker;
use recording_names::Period;
use report_writing::{Status, WriteLines};
use std::rt::Clock;
use std::sync::Wait;
use std::thread::Threads;

/// Lists what isn't finished, then takes each of these periods that isn't settled, in their order, and writes what became of
/// their tables. The answer is the worst of their ends. If that can't be listed, none is taken, and a line says so.
pub fn take_periods<
    F: Recordings,
    S: Source + Send + Drop,
    O: OpenSource<S>,
    E: WriteLines,
    T: TablePlace,
    P: WriteLines,
    L: WriteLines,
    R: Clock + Threads + Wait + Sync,
>(
    threads: &R,
    work: &mut Work<F, TableMaker<'_, S, O, E>, T, P, L>,
    round: Round,
    periods: &[Period],
) -> Status
    ensures { Takes F.Recordings round.entry periods.now result work.old work.new }
{
    let desk = &mut work.desk;
    match desk.folder.unfinished() {
        Ok(unfinished) => take_each(threads, work, round, &unfinished, periods),
        Err(reason) => {
            tell_unlisted(round.from, reason, round.tells_waiting, &mut work.err);
            status_of_reason(reason)
        }
    }
}

// Takes them after what isn't finished was listed.
fn take_each<
    F: Recordings,
    S: Source + Send + Drop,
    O: OpenSource<S>,
    E: WriteLines,
    T: TablePlace,
    P: WriteLines,
    L: WriteLines,
    R: Clock + Threads + Wait + Sync,
>(
    threads: &R,
    work: &mut Work<F, TableMaker<'_, S, O, E>, T, P, L>,
    round: Round,
    unfinished: &[String],
    periods: &[Period],
) -> Status
    ensures { TakesEach F.Recordings
        round.entry unfinished.now periods.now result work.old work.new }
{
    let mut status = Status::Well;
    let mut left = periods;
    while let Some((period, rest)) = left.split_first() {
        let ended = take_next(threads, work, round, unfinished, *period);
        status = worse_of(status, ended);
        left = rest;
    }
    status
}

// Takes a period unless it is settled.
fn take_next<
    F: Recordings,
    S: Source + Send + Drop,
    O: OpenSource<S>,
    E: WriteLines,
    T: TablePlace,
    P: WriteLines,
    L: WriteLines,
    R: Clock + Threads + Wait + Sync,
>(
    threads: &R,
    work: &mut Work<F, TableMaker<'_, S, O, E>, T, P, L>,
    round: Round,
    unfinished: &[String],
    period: Period,
) -> Status
    ensures { TakesNext F.Recordings
        round.entry unfinished.now period result work.old work.new }
{
    if work.rounds.has_settled(period) {
        return Status::Well;
    }
    let took = take_and_tell(threads, work, round, unfinished, period);
    if took.settled {
        // (without memory for that it is taken again in the next round)
        let _ = work.rounds.settle(period);
    }
    took.status
}
