//! Laws of recordings that are collected and merged.

ghost use Rattle.std.specs.Prelude.{ℕ, List, flat_map};
ghost use Rattle.ipfix_message.specs.declared.record.DataRecord.{DataRecord};
ghost use Rattle.ipfix_session.specs.Given.{records_of};
ghost use Rattle.flow_table.specs.Plans.{PlanValue};
ghost use Rattle.flow_table.specs.Tables.{IsTable};
ghost use Rattle.flow_table.specs.declared.table.Table.{Table};
ghost use Rattle.flow_merge.specs.Merging.{HasRowsOf};
ghost use Rattle.laws_recordings.specs.RecordedFiles.{all_files, AreRecordedIn, ForRecordings, IsMergedFrom, SameFlows, with_options};

use ipfix_session::Source;

/// The files in which sessions were recorded, in whatever order, give the flow records that came in the sessions, up to the end or
/// first fault of each, each as often, and so they have the same table, but for the number of options records: those that a file
/// tells again (RFC 7015, section 5). A message after which the templates would count more than their limit is such a fault, too.
pub fn recordings_give_all_records()
    ensures records { ForRecordings (λ came files. SameFlows (flat_map records_of files) came) }
    ensures table { ForRecordings (λ came files. (plan : PlanValue) (table : Table)
        → IsTable plan (flat_map records_of files) table
        → IsTable plan came (with_options plan came table)) }
{}

/// If a table is made of the files of each period, and its export is what a source holds, then the merged
/// table of all sources is the aggregate of all records that came in the sessions, up to the end or first fault of each.
pub fn periods_merge_to_all_records<S: Source>()
    ensures { (plan : PlanValue) (table : Table) (came : List DataRecord)
        (periods : List (List (List ℕ))) → AreRecordedIn came (all_files periods)
        → IsMergedFrom S.seen plan periods table → HasRowsOf plan came table }
{}
