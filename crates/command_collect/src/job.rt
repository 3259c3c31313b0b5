//! What a run of collecting is to do.

ghost use Rattle.std.specs.Prelude.{◌≡◌, false, is_some, None};
ghost use Rattle.exporter_options.specs.declared.beside.TheConstants as asked;
ghost use Rattle.command_collect.specs.Exporters.{asked_of, noting};

use crate::engine::Engine;
use element_registry::Elements;
use exporter_options::Wanted;
use flow_collect::NOTHING_WANTED;
use flow_estimates::Estimates;
use flow_filter::Filter;
use flow_maps::Maps;
use flow_table::{Context, Plan};
use flow_times::TimeNoting;
use ipfix_wire::ElementId;
use output_tables::Output;
use report_writing::{NOTHING_MORE, Verbosity};
use std::net::IpAddr;
use std::time::Duration;

/// What a run is to do with what it collects, wherever that comes from.
#[derive(Clone, Copy)]
pub struct CollectJob<'a> {
    /// These name the keys and counters.
    pub elements: &'a Elements,
    /// The intervals, keys and counters of the table.
    pub plan: &'a Plan,
    /// What collects.
    pub engine: Engine,
    /// How the table is written.
    pub output: Output,
    /// What is told beside the lines that always stand.
    pub verbosity: Verbosity,
    /// Which elements of context records get: those that the plan's keys and its conditions name.
    pub wanted: Context,
    /// What records get of what options records told before them: what the plan's times need.
    pub options: Wanted,
    /// The keys whose values are numbers of maps, where the plan has some.
    pub maps: Option<&'a Maps>,
    /// Which estimates of counters records get, where the plan counts estimates.
    pub estimates: Option<&'a Estimates>,
    /// Whether nothing is collected if a record that counts was sampled.
    pub refuses_sampled: bool,
    /// What is noted of the times of records that count, and told of each session.
    pub times: TimeNoting,
    /// The counters of which it is noted whether a record has one above 2^63, if that is told.
    pub great_counters: Option<&'a [ElementId]>,
    /// What the templates of a session may count, if they have a limit.
    pub templates: Option<u64>,
    /// Which records count, where the plan has conditions.
    pub filter: Option<&'a Filter>,
    /// The exporter that is told of each session, if one is, by its place. Of a connection it is the peer if none is
    /// told.
    pub exporters: &'a [Option<IpAddr>],
}

impl<'a> CollectJob<'a> {
    /// One that tells nothing more, wants no context and nothing of options records, and has no maps, no estimates, no
    /// filter and no limit of templates.
    pub fn plain(elements: &'a Elements, plan: &'a Plan, engine: Engine, output: Output) -> Self
        ensures elements { result.elements.now ≡ elements.now }
        ensures plan { result.plan.now ≡ plan.now }
        ensures engine { result.engine ≡ engine }
        ensures output { result.output ≡ output }
        ensures verbosity { result.verbosity ≡ NOTHING_MORE }
        ensures wanted { result.wanted ≡ NOTHING_WANTED }
        ensures options { result.options ≡ asked.NOTHING_WANTED }
        ensures maps { result.maps ≡ None }
        ensures estimates { result.estimates ≡ None }
        ensures refuses { result.refuses_sampled ≡ false }
        ensures times { result.times ≡ TimeNoting.Nothing }
        ensures great { result.great_counters ≡ None }
        ensures templates { result.templates ≡ None }
        ensures filter { result.filter ≡ None }
    {
        CollectJob {
            elements,
            plan,
            engine,
            output,
            verbosity: NOTHING_MORE,
            wanted: NOTHING_WANTED,
            options: exporter_options::NOTHING_WANTED,
            maps: None,
            estimates: None,
            refuses_sampled: false,
            times: TimeNoting::Nothing,
            great_counters: None,
            templates: None,
            filter: None,
            exporters: &[],
        }
    }

    /// The same, where sessions note the rates of sampling whatever is told.
    pub fn noting_rates(self) -> Self
        ensures { result ≡ noting self.entry }
    {
        CollectJob {
            options: Wanted {
                sampling: true,
                ..self.options
            },
            ..self
        }
    }

    /// What records get of what options records told: what is wanted, and rates of sampling where they are told or judged.
    pub fn asked(&self) -> Wanted
        ensures { result ≡ asked_of self.now }
    {
        Wanted {
            sampling: self.options.sampling || self.verbosity.verbose || self.verbosity.strict,
            ..self.options
        }
    }

    /// Whether the counters of flows are scaled by the rates of sampling.
    pub fn is_scaled(&self) -> bool
        ensures { result ≡ is_some self.now.estimates }
    {
        self.estimates.is_some()
    }
}

/// The connections that a run waits for.
#[derive(Clone, Copy)]
pub struct Connections<'a> {
    /// Where they are waited for, as lines name it.
    pub address: &'a str,
    /// How many.
    pub count: usize,
    /// A read that waits for longer fails; with no limit it waits for as long as it takes.
    pub idle: Option<Duration>,
}
