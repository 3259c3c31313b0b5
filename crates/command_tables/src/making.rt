//! The tables of the periods of a folder.

ghost use Rattle.std.specs.Prelude.{◌≡◌, ◌*◌, drop, length};
ghost use Rattle.std.specs.Option.{option_map};
ghost use Rattle.period_tables.specs.Rounds.{first_taken};
ghost use Rattle.period_tables.specs.Telling.{reason_status};

use crate::days::{days_of, place_periods, take_day_of, take_day_text};
use crate::opening::{check_engine, name_plans, open_tables};
use crate::plans::{PlanDays, PlanTexts, PlanWork, TablesWork, keep_plans, open_plans, read_plans};
use crate::removing::remove_old;
use crate::texts::take_text_of;
use cli_inputs::{TablesArguments, known_zones, zone_of_days};
use command_collect::Engine;
use period_tables::{Round, Rounds, status_of_reason, take_periods, tell_unlisted, worse_of};
use recording_folder::second_now;
use recording_names::Period;
use recording_periods::PeriodRule;
use report_writing::{Reason, Status};
use std::io;
use std::rt::Clock;
use std::sync::Wait;
use std::thread::{self, Threads};
use std::time::Duration;
use tables_folder::{days_in, periods_in};

/// A run of the command.
#[derive(Clone, Copy)]
pub(crate) struct TablesRun<'a> {
    pub rt: &'a HostRuntime,
    /// The paths of the folders of recordings and of tables.
    pub from: &'a str,
    pub into: &'a str,
    pub rule: PeriodRule,
    /// For how many seconds from its begin on the recordings of a period are kept, if not for ever.
    pub keep: Option<u64>,
}

const SECONDS_OF_A_DAY: u64 = 86_400;

/// `collectd tables`: the tables of each finished period of a folder of recordings that has none of exactly its files, under
/// each plan.
pub fn tables<R: Clock + Threads + Wait + Sync>(
    threads: &R,
    rt: &HostRuntime,
    arguments: &TablesArguments,
) -> Result<Status, Status> {
    let mut err = rt.stderr();
    let engine = Engine::Lots(arguments.workers);
    check_engine(engine, &mut err)?;
    let named = name_plans(rt.alloc(), arguments.plans, &mut err)?;
    let zones = known_zones(rt, arguments.days, &mut err)?;
    let zone = match arguments.days {
        Some(name) => Some(zone_of_days(&zones, name, &mut err)?),
        None => None,
    };
    let read = read_plans(rt, arguments, &named, &mut err)?;
    let folder = open_tables(rt, arguments.into, &mut err)?;
    let mut plans = open_plans(rt, arguments, engine, &folder, &read, zone, &mut err)?;
    keep_plans(arguments.into, &plans, &mut err)?;
    let run = run_of(rt, arguments);
    Ok(if arguments.follow {
        follow(threads, run, &mut plans)
    } else {
        take_round(threads, run, &mut plans)
    })
}

// A run of the command with what it is given.
fn run_of<'a>(rt: &'a HostRuntime, arguments: &TablesArguments<'_, 'a>) -> TablesRun<'a>
    ensures from { result.from ≡ arguments.now.from }
    ensures into { result.into ≡ arguments.now.into }
    ensures every { result.rule.every ≡ arguments.now.every }
    ensures grace { result.rule.grace ≡ arguments.now.grace }
    ensures keep { result.keep ≡ option_map (λ days. days * 86_400) arguments.now.keep_days }
{
    TablesRun {
        rt,
        from: arguments.from,
        into: arguments.into,
        rule: PeriodRule {
            every: arguments.every,
            grace: arguments.grace,
        },
        keep: seconds_of(arguments.keep_days),
    }
}

// The seconds of so many days.
fn seconds_of(days: Option<u32>) -> Option<u64>
    ensures { result ≡ option_map (λ n. n * 86_400) days }
{
    match days {
        Some(days) => Some(u64::from(days) * SECONDS_OF_A_DAY),
        None => None,
    }
}

// Takes a round each second, until a path of a table can't be written.
fn follow<R: Clock + Threads + Wait + Sync>(
    threads: &R,
    run: TablesRun,
    plans: &mut [PlanWork],
) -> Status
    ensures { result ≡ Status.Failed }
{
    for _ in threads.forever() {
        let _ = take_round(threads, run, plans);
        if has_failed(plans) {
            break;
        }
        thread::sleep(threads, Duration::from_secs(1));
    }
    Status::Failed
}

// Whether a path of a table could not be written.
fn has_failed(plans: &[PlanWork]) -> bool {
    plans.iter().any(|plan| plan.work.out.reason().is_some())
}

// Takes the periods of each plan, one plan after another, and then removes the recordings that are kept no longer.
fn take_round<R: Clock + Threads + Wait + Sync>(
    threads: &R,
    run: TablesRun,
    plans: &mut [PlanWork],
) -> Status {
    let now = second_now(run.rt);
    let several = plans.len() > 1;
    let mut status = Status::Well;
    let mut takes_all = false;
    for (place, plan) in plans.iter_mut().enumerate() {
        let work = &mut plan.work;
        work.rounds.begin(now);
        if let Some(texts) = &mut plan.texts {
            texts.texts.rounds.begin(now);
        }
        takes_all = work.rounds.takes_all();
        let round = Round {
            alloc: run.rt.alloc(),
            from: run.from,
            plan: if several { Some(plan.name) } else { None },
            rule: run.rule,
            now,
            // (what all plans wait for is told once)
            tells_waiting: place == 0 && work.rounds.tells_waiting(),
        };
        status = worse_of(status, take_plan(threads, run, plan, round));
    }
    if let Some(keep) = run.keep {
        if takes_all {
            status = worse_of(status, remove_old(run, keep, now, plans));
        }
    }
    if has_failed(plans) {
        status = Status::Failed;
    }
    status
}

// Takes the periods of a plan, as far as this round takes them, then their texts, and, if it takes all, the days and months.
fn take_plan<R: Clock + Threads + Wait + Sync>(
    threads: &R,
    run: TablesRun,
    plan: &mut PlanWork,
    round: Round,
) -> Status {
    let work = &mut plan.work;
    let tells = round.tells_waiting;
    let days = match days_in(run.rt, run.from) {
        Ok(days) => days,
        Err(error) => return tell_folder(work, run.from, tells, Reason::of(&error)),
    };
    let mut status = Status::Well;
    let mut periods = Vec::new(run.rt.alloc());
    for day in days_taken(&work.rounds, &days) {
        if let Err(error) = add_periods(run, day.as_str(), &mut periods) {
            status = worse_of(
                status,
                tell_folder(work, run.from, tells, Reason::of(&error)),
            );
        }
    }
    status = worse_of(status, take_periods(threads, work, round, &periods));
    if let Some(texts) = &mut plan.texts {
        status = worse_of(status, take_texts(work, texts, round, &periods));
    }
    if work.rounds.takes_all()
        && let Some(local) = &mut plan.local
    {
        status = worse_of(status, take_days(run, work, &mut local.days, round));
        status = worse_of(status, take_days(run, work, &mut local.months, round));
    }
    status
}

// Takes the days, or the months, of all periods that have a table, and their texts.
fn take_days<'a>(
    run: TablesRun,
    work: &mut TablesWork<'a>,
    made: &mut PlanDays<'a>,
    round: Round,
) -> Status {
    let periods = match work.desk.tables.periods() {
        Ok(periods) => periods,
        Err(error) => return tell_folder(work, run.into, true, Reason::of(&error)),
    };
    let Ok(placed) = place_periods(round.alloc, &made.tables.calendar, &periods) else {
        return Status::Failed;
    };
    let Ok(days) = days_of(round.alloc, &placed) else {
        return Status::Failed;
    };
    let mut status = Status::Well;
    for day in &days {
        status = worse_of(
            status,
            take_day_of(work, &mut made.tables, round, &placed, *day),
        );
        if let Some(texts) = &mut made.texts {
            status = worse_of(
                status,
                take_day_text(work, &made.tables, texts, round, *day),
            );
        }
    }
    status
}

// Takes the texts of these periods.
fn take_texts<'a>(
    work: &mut TablesWork<'a>,
    made: &mut PlanTexts<'a>,
    round: Round,
    periods: &[Period],
) -> Status {
    let mut status = Status::Well;
    for period in periods {
        let ended = take_text_of(&made.job, work, &mut made.texts, round, *period);
        status = worse_of(status, ended);
    }
    status
}

// Adds the periods of a day.
fn add_periods(run: TablesRun, day: &str, periods: &mut Vec<Period>) -> io::Result<()> {
    for period in periods_in(run.rt, run.from, day)? {
        periods.push(period)?;
    }
    Ok(())
}

// Of these days those that this round takes.
fn days_taken<'d>(rounds: &Rounds, days: &'d [String]) -> &'d [String]
    ensures { result.now ≡ drop (first_taken rounds.now (length days.now)) days.now }
{
    &days[rounds.first_day(days.len())..]
}

// Writes why a folder can't be listed, if it is time for that, and answers how the command ends by it.
fn tell_folder(work: &mut TablesWork, path: &str, tells: bool, reason: Reason) -> Status
    ensures { result ≡ reason_status reason }
{
    tell_unlisted(path, reason, tells, &mut work.err);
    status_of_reason(reason)
}
