//! What a run of collecting is to do.

ghost use Rattle.std.specs.Prelude.{◌≡◌};
ghost use Rattle.std.specs.Option.{option_map};
ghost use Rattle.command_collect.specs.Large.{noted_counters};
ghost use Rattle.flow_plan_fields.specs.FilteredPlans.{filter_of};
ghost use Rattle.flow_times.specs.Noted.{noted_under};
ghost use Rattle.flow_plan_fields.specs.Wants.{refuses_sampled as is_refusing, wanted_context as context_wanted, wanted_options as options_wanted};

use crate::arguments::TableArguments;
use command_collect::{CollectJob, Engine, noted_counters};
use flow_maps::Maps;
use flow_plan_fields::{refuses_sampled, wanted_context, wanted_options};
use flow_times::TimeNoting;
use input_sources::LoadedPlan;
use std::net::IpAddr;

/// What a run is to do with what this engine collects, of sessions whose templates may count so much, or anything.
pub fn collect_job<'a>(
    loaded: &'a LoadedPlan,
    maps: Option<&'a Maps>,
    table: &TableArguments,
    engine: Engine,
    templates: Option<u64>,
    exporters: &'a [Option<IpAddr>],
) -> CollectJob<'a>
    // It names the plan's keys and counters by the elements that the plan was read with.
    ensures names { result.elements.now ≡ loaded.now.elements }
    ensures plan { result.plan.now ≡ loaded.now.read.plan }
    // It wants what these keys, the plan's conditions and its maps name of context, and these conditions are its filter.
    ensures wanted { result.wanted ≡ context_wanted loaded.now.read loaded.now.maps }
    // Of what options records say it wants what the plan's times need.
    ensures options { result.options ≡ options_wanted loaded.now.read }
    ensures filter { option_map (λ f. f.now) result.filter ≡ filter_of loaded.now.read }
    ensures maps { result.maps ≡ maps.entry }
    // Where the plan counts estimates records get these, and where it refuses sampled records the run does.
    ensures estimates { option_map (λ e. e.now) result.estimates ≡ loaded.now.estimates }
    ensures refuses { result.refuses_sampled ≡ is_refusing loaded.now.read }
    // Of times it tells what is to be told under the plan, which is more if it is verbose.
    ensures times { result.times ≡ noted_under result.plan.now.choices.times
        result.verbosity.verbose }
    // Of the plan's counters it is noted whether one is above 2^63, if it is verbose.
    ensures great { option_map (λ c. c.now) result.great_counters ≡
        noted_counters table.now.verbosity loaded.now.read.plan }
    ensures exporters { result.exporters.now ≡ exporters.now }
    // The rest is as the command is given.
    ensures engine { result.engine ≡ engine }
    ensures templates { result.templates ≡ templates }
    ensures output { result.output ≡ table.now.output }
    ensures verbosity { result.verbosity ≡ table.now.verbosity }
{
    CollectJob {
        elements: &loaded.elements,
        plan: &loaded.read.plan,
        engine,
        output: table.output,
        verbosity: table.verbosity,
        wanted: wanted_context(&loaded.read, &loaded.maps),
        options: wanted_options(&loaded.read),
        maps,
        estimates: loaded.estimates.as_ref(),
        refuses_sampled: refuses_sampled(&loaded.read),
        times: TimeNoting::under(loaded.read.plan.choices().times, table.verbosity.verbose),
        great_counters: noted_counters(table.verbosity, &loaded.read.plan),
        templates,
        filter: loaded.read.conditions(),
        exporters,
    }
}
