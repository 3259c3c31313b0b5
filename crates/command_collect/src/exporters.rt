//! Whose sessions they are.

ghost use Rattle.std.specs.Prelude.{◌≡◌, IfOk};
ghost use Rattle.command_collect.specs.Exporters.{exporter_of as exporter, first_origin, first_told, in_context as given, other_origins, others_told};

use crate::job::CollectJob;
use flow_collect::{Exporter, InContext, SessionContext};
use report_writing::Origin;
use std::alloc::{AllocError, Global};
use std::collections::VecDeque;
use std::net::IpAddr;

/// The sources, each with what its session knows: the exporter that is told of it, or the peer that is its origin, by
/// its place, as far as the job wants it; with what the job asks of options records; and with its maps, estimates, filter and
/// limit of templates.
pub fn in_context<'a, S: Drop>(
    alloc: Global,
    sources: Vec<S>,
    origins: &[Origin],
    job: &CollectJob<'a>,
) -> Result<Vec<InContext<'a, S>>, AllocError>
    ensures { IfOk result (λ all. all.items ≡ given job.now sources.items origins.now) }
{
    let mut waiting = VecDeque::from_vec(sources);
    let mut told = job.exporters;
    let mut left = origins;
    let mut all = Vec::with_capacity(alloc, waiting.len())?;
    while let Some(source) = waiting.pop_front() {
        let context = SessionContext {
            exporter: exporter_by(told, left),
            wanted: job.wanted,
            options: job.asked(),
            maps: job.maps,
            estimates: job.estimates,
            refuses_sampled: job.refuses_sampled,
            times: job.times,
            great_counters: job.great_counters,
            templates: job.templates,
        };
        all.push(InContext {
            source,
            context,
            filter: job.filter,
        })?;
        told = after_told(told);
        left = after_origin(left);
    }
    Ok(all)
}

// The exporter of a session that has the first place.
fn exporter_by(told: &[Option<IpAddr>], origins: &[Origin]) -> Option<Exporter>
    ensures { result ≡ exporter (first_told told.now) (first_origin origins.now) }
{
    let told = match told {
        [] => None,
        [first, ..] => *first,
    };
    match origins {
        [] => exporter_of(told, &Origin::Unknown),
        [first, ..] => exporter_of(told, first),
    }
}

// The exporters that are told of the places after the first.
fn after_told(told: &[Option<IpAddr>]) -> &[Option<IpAddr>]
    ensures { result.now ≡ others_told told.now }
{
    match told {
        [] => told,
        [_, others @ ..] => others,
    }
}

// The origins after the first.
fn after_origin<'a, 'b>(origins: &'b [Origin<'a>]) -> &'b [Origin<'a>]
    ensures { result.now ≡ other_origins origins.now }
{
    match origins {
        [] => origins,
        [_, others @ ..] => others,
    }
}

// The exporter of a session, if it is known.
fn exporter_of(told: Option<IpAddr>, origin: &Origin) -> Option<Exporter>
    ensures { result ≡ exporter told origin.now }
{
    match (told, origin) {
        (Some(address), _) => Some(Exporter::at(address)),
        (None, Origin::Peer(address)) => Some(Exporter::at(address.ip())),
        (None, Origin::File { .. } | Origin::Unknown) => None,
    }
}
