//! Adding the text of a table.

ghost use Rattle.std.specs.Prelude.{◌≡◌, IfErr, IfOk};
ghost use Rattle.std.specs.Option.{ForSome};
ghost use Rattle.flow_merge.specs.Merging.{RefusesExport, merging_intervals, merging_plan};
ghost use Rattle.ipfix_session.specs.declared.driver.TheConstants.{READ_LIMIT};
ghost use Rattle.command_merge_receipts.specs.Tables.{AddsAll, AddsText, IsAgainst};

use flow_merge::{MergeFault, Merging};
use ipfix_session::{FromReader, READ_LIMIT, Source};
use table_parts::{PartTable, is_its_table};

/// Why the text of a table isn't added.
#[derive(Clone, Copy)]
pub enum Against {
    /// It is another than the one of the receipt.
    NotItsTable,
    Merge(MergeFault),
}

/// Adds the text of a table, if it is the one of its receipt: what is compared is what is added.
pub fn add_text<'b>(
    merging: Merging<'b>,
    table: &PartTable,
    octets: &[u8],
) -> Result<Merging<'b>, Against>
    ensures added { IfOk result (AddsText table.now octets.now merging.entry) }
    ensures against { IfErr result (IsAgainst merging.entry table.now octets.now) }
{
    if !is_its_table(table, octets) {
        return Err(Against::NotItsTable);
    }
    let mut source = FromReader::new(octets);
    match add_source(merging, &mut source) {
        Ok(merging) => Ok(merging),
        Err(fault) => Err(Against::Merge(fault)),
    }
}

// Adds what a source holds.
fn add_source<'b, S: Source>(
    merging: Merging<'b>,
    source: &mut S,
) -> Result<Merging<'b>, MergeFault>
    ensures plan { IfOk result (λ m. merging_plan m ≡ merging_plan merging.entry) }
    ensures intervals { IfOk result (λ m. merging_intervals m ≡ merging_intervals merging.entry) }
    ensures adds { ForSome (S.seen source.old).text (λ text. IfOk result (AddsAll merging.entry text)) }
    ensures fault { RefusesExport S.seen READ_LIMIT merging.entry source.old source.new result }
{
    merging.read(source, READ_LIMIT)
}
