//! What was collected, how many records were left out of it, and what sessions tell of sampling and of times.

ghost use Rattle.std.specs.Prelude.{◌≡◌, IfOk};
ghost use Rattle.ipfix_session.specs.Ledger.{capped};
ghost use Rattle.flow_collect.specs.InFull.{fulls_in};
ghost use Rattle.command_collect.specs.Gathered.{all_filtered, IsGathered, samplings_in, times_of_each};

use flow_collect::{FilteredReport, Serial};
use flow_estimates::SamplingReport;
use flow_table::FlatTable;
use flow_times::TimesReport;
use ipfix_session::FullReport;
use std::alloc::{AllocError, Global};
use std::collections::VecDeque;

/// What was collected, how many records were left out of it, and what sessions tell of sampling and of times.
#[derive(Drop)]
pub struct Gathered<S> {
    pub run: Serial<S, FullReport, FlatTable>,
    /// How many records of all sessions filters left out. The count stops at `u64::MAX`.
    pub filtered: u64,
    /// At which rates records are sampled that count, session by session. It is noted if the job asks for it.
    pub sampling: Vec<SamplingReport>,
    /// What is told of the times of records that count, session by session. It is noted if the job asks for it.
    pub times: Vec<TimesReport>,
}

/// What was collected, with all counts of records that were left out in one, and what is told of sampling and of times
/// apart.
pub fn gather<S: Drop>(
    alloc: Global,
    collected: Serial<S, FilteredReport, FlatTable>,
) -> Result<Gathered<S>, AllocError>
    ensures { IfOk result (IsGathered collected) }
{
    let Serial {
        sessions,
        sources,
        table,
    } = collected;
    let filtered = count_filtered(&sessions);
    let Parted {
        fulls,
        sampling,
        times,
    } = part_reports(alloc, sessions)?;
    Ok(Gathered {
        run: Serial {
            sessions: fulls,
            sources,
            table,
        },
        filtered,
        sampling,
        times,
    })
}

// How many records were left out.
fn count_filtered(reports: &[FilteredReport]) -> u64
    ensures { result ≡ capped (all_filtered reports.now) }
{
    let mut filtered = 0u64;
    for told in reports {
        filtered = filtered.saturating_add(told.filtered);
    }
    filtered
}

// What sessions tell, each part apart.
#[derive(Drop)]
struct Parted {
    fulls: Vec<FullReport>,
    sampling: Vec<SamplingReport>,
    times: Vec<TimesReport>,
}

// The reports in full, and what they tell of sampling and of times.
fn part_reports(alloc: Global, sessions: Vec<FilteredReport>) -> Result<Parted, AllocError>
    ensures fulls { IfOk result (λ parted. parted.fulls.items ≡ fulls_in sessions.items) }
    ensures sampling { IfOk result (λ parted. parted.sampling.items ≡ samplings_in sessions.items) }
    ensures times { IfOk result (λ parted. parted.times.items ≡ times_of_each sessions.items) }
{
    let mut waiting = VecDeque::from_vec(sessions);
    let mut parted = Parted {
        fulls: Vec::new(alloc),
        sampling: Vec::new(alloc),
        times: Vec::new(alloc),
    };
    while let Some(told) = waiting.pop_front() {
        let FilteredReport {
            full,
            sampling,
            times,
            ..
        } = told;
        parted.fulls.push(full)?;
        parted.sampling.push(sampling)?;
        parted.times.push(times)?;
    }
    Ok(parted)
}
