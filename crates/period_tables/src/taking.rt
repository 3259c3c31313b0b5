//! Taking a period of a folder of recordings.

ghost use Rattle.std.specs.Prelude.{◌≡◌, IfOk, OnErr};
ghost use Rattle.period_tables.specs.Outcomes.{IsOutcome};

use crate::desk::Desk;
use crate::finished::take_finished;
use crate::outcome::Outcome;
use crate::place::TablePlace;
use crate::recordings::Recordings;
use input_sources::OpenSource;
use ipfix_session::Source;
use period_collect::TableMaker;
use recording_names::Period;
use recording_periods::{PeriodRule, PeriodState, period_state};
use report_writing::WriteLines;
use std::alloc::{AllocError, Global};
use std::rt::Clock;
use std::sync::Wait;
use std::thread::Threads;

/// Makes the table of a period if it is finished at this second since 1970, where these names were in the folder of what isn't
/// finished, and if it has no table of exactly its files. It answers what became of the table, which may be made in threads of
/// this handle. An `Err` changes nothing.
pub fn take_period<
    F: Recordings,
    S: Source + Send + Drop,
    O: OpenSource<S>,
    E: WriteLines,
    T: TablePlace,
    R: Clock + Threads + Wait + Sync,
>(
    threads: &R,
    desk: &mut Desk<F, TableMaker<'_, S, O, E>, T>,
    alloc: Global,
    rule: PeriodRule,
    now: u64,
    unfinished: &[String],
    period: Period,
) -> Result<Outcome, AllocError>
    ensures ok { IfOk result
        (IsOutcome F.Recordings rule now unfinished.now period desk.old desk.new) }
    ensures err { OnErr result (desk.new ≡ desk.old) }
{
    match period_state(rule, now, unfinished, period) {
        PeriodState::NotOver => Ok(Outcome::NotOver),
        PeriodState::HeldUp(name) => Ok(Outcome::HeldUp(String::from_str(alloc, name)?)),
        PeriodState::Finished => Ok(take_finished(threads, desk, alloc, period)),
    }
}
