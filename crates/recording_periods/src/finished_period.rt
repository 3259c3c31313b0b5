//! When a period is finished.

ghost use Rattle.std.specs.Prelude.{IfNone, IfSome};
ghost use Rattle.recording_periods.specs.FinishedPeriods.{HoldsUp, IsFirstToHold, IsPeriodState, NoneHoldsUp};
ghost use Rattle.recording_periods.specs.Whether.{Whether};

use recording_names::{Period, read_unfinished_name};

/// How long periods are, and for how many seconds after its end a period isn't looked at.
#[derive(Clone, Copy, Debug, PartialEq, Eq)]
pub struct PeriodRule {
    pub every: u64,
    pub grace: u64,
}

/// Whether a period is finished, or what it waits for.
#[derive(Clone, Copy, Debug)]
pub enum PeriodState<'n> {
    /// By the clock it isn't over yet, or its grace isn't.
    NotOver,
    /// The file of this name isn't finished: the first of those that hold it up.
    HeldUp(&'n str),
    Finished,
}

/// Whether a period is finished at this second since 1970, where these names were in the folder of what isn't finished.
pub fn period_state<'n>(
    rule: PeriodRule,
    now: u64,
    unfinished: &'n [String],
    period: Period,
) -> PeriodState<'n>
    ensures { IsPeriodState rule now unfinished.now period.begins result }
{
    let waits = u128::from(rule.every) + u128::from(rule.grace);
    if u128::from(now) < u128::from(period.begins) + waits {
        return PeriodState::NotOver;
    }
    match first_holding(unfinished, period) {
        Some(name) => PeriodState::HeldUp(name),
        None => PeriodState::Finished,
    }
}

// The first name that holds a period up.
fn first_holding<'n>(unfinished: &'n [String], period: Period) -> Option<&'n str>
    ensures none { IfNone result (NoneHoldsUp period.begins unfinished.now) }
    ensures first { IfSome result (λ name. IsFirstToHold period.begins unfinished.now name.now) }
{
    let mut left = unfinished;
    while let Some((name, rest)) = left.split_first() {
        let name = name.as_str();
        if holds_up(name, period) {
            return Some(name);
        }
        left = rest;
    }
    None
}

fn holds_up(name: &str, period: Period) -> bool
    ensures { Whether result (HoldsUp period.begins name.now) }
{
    match read_unfinished_name(name) {
        Some(told) => told.period.begins <= period.begins,
        None => false,
    }
}
