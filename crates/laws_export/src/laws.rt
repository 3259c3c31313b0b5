//! The law of reading back.

ghost use Rattle.std.specs.Prelude.{◌≡◌, ◌<◌, ◌^◌, List, length, map, All};
ghost use Rattle.flow_table.specs.declared.key.Key.{Key};
ghost use Rattle.flow_table.specs.Fitting.{FitsPlan};
ghost use Rattle.flow_table.specs.AddedUp.{rows_in};
ghost use Rattle.laws_export.specs.ReadBack.{as_exported, CanBeExported, IsReadBack, CanBeCounted, Recounts, EndInTime, ForExports, IsWhole};

use flow_table::{Plan, Table};

/// The messages of a table's export are read with no fault and no loss, and their records are the
/// rows in order (RFC 7011, sections 3 and 8).
pub fn rows_are_read_back()
    ensures { ForExports (λ plan time rows.
        CanBeExported plan time rows → IsReadBack plan time rows) }
{}

/// The aggregate of these records under the same plan with method start, whose keys are read as they were
/// exported, has the rows, with flows 1 each (RFC 7015, section 5). A key without a prefix is exported as it is
/// read, but for an exporter's address.
pub fn rows_are_counted_again()
    ensures counted { ForExports (λ plan time rows.
        CanBeCounted plan rows → Recounts plan time rows) }
    ensures whole { (keys : List Key) → All IsWhole keys → map as_exported keys ≡ keys }
{}

/// What is exported of a table that fits its plan is read back: no fault, no loss, the rows in order;
/// and where every interval ends before 2^50 ms, its records have the same aggregate by method start, each
/// row with one flow.
pub fn tables_are_read_back(plan: &Plan, table: &Table, time: u32)
    requires fits { FitsPlan plan.now table.now }
    requires few { length table.now.rows.items < 2 ^ 32 }
    ensures read { IsReadBack plan.now time (rows_in table.now) }
    ensures counted { EndInTime plan.now table.now
        → Recounts plan.now time (rows_in table.now) }
{
    // That no fault fits the plan.
    plan.length();
}
