//! The table that an export is.

ghost use Rattle.std.specs.Prelude.{◌≡◌, IfErr, IfOk};
ghost use Rattle.std.specs.Option.{ForSome};
ghost use Rattle.flow_merge.specs.Merging.{RefusesExport, merging_plan};
ghost use Rattle.flow_table.specs.Fitting.{FitsPlan};
ghost use Rattle.ipfix_session.specs.declared.driver.TheConstants.{READ_LIMIT};
ghost use Rattle.command_merge_receipts.specs.Tables.{AddsAll};
ghost use Rattle.command_tables.specs.Texts.{CannotMerge, IsTableOf};

use flow_export::Intervals;
use flow_merge::{MergeFault, Merging};
use flow_table::{FlatTable, Plan};
use ipfix_session::{FromReader, READ_LIMIT, Source};
use std::alloc::Global;

/// The table of the rows of an export under a plan.
pub fn table_in(alloc: Global, plan: &Plan, octets: &[u8]) -> Result<FlatTable, MergeFault>
    ensures ok { IfOk result (IsTableOf plan.now octets.now) }
    ensures fits { IfOk result (FitsPlan plan.now) }
    ensures fault { IfErr result (CannotMerge plan.now octets.now) }
{
    let merging = Merging::new(alloc, plan, Intervals::OfPlan)?;
    let mut source = FromReader::new(octets);
    let merging = add_source(merging, &mut source)?;
    merging.finish()
}

// Adds what a source holds.
fn add_source<'b, S: Source>(
    merging: Merging<'b>,
    source: &mut S,
) -> Result<Merging<'b>, MergeFault>
    ensures plan { IfOk result (λ m. merging_plan m ≡ merging_plan merging.entry) }
    ensures adds { ForSome (S.seen source.old).text (λ text. IfOk result (AddsAll merging.entry text)) }
    ensures fault { RefusesExport S.seen READ_LIMIT merging.entry source.old source.new result }
{
    merging.read(source, READ_LIMIT)
}
