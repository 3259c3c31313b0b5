//! Which sessions are left out.

ghost use Rattle.std.specs.Prelude.{◌≡◌, All, map, IfOk};
ghost use Rattle.flow_table.specs.AddedUp.{ForListsOf, rows_in};
ghost use Rattle.flow_table.specs.Fitting.{FitsPlan};
ghost use Rattle.largest_sessions.specs.SessionNumbers.{AreLeftOutOf};

use crate::cursor::Cursor;
use crate::walk::{first_cursor, step};
use flow_table::{FlatTable, Plan, Row};
use std::alloc::{AllocError, Global};

// The rows of all tables.
fn cursors_of(alloc: Global, tables: Vec<FlatTable>) -> Result<Vec<Cursor>, AllocError>
    ensures { IfOk result (λ cursors. cursors.items ≡ map rows_in tables.items) }
{
    let mut cursors = Vec::new(alloc);
    for table in tables {
        cursors.push(Cursor::new(alloc, table)?)?;
    }
    Ok(cursors)
}

/// The indices of the sessions that are left out, in the order in which they go, by the tables of all sessions, one by
/// one: as long as some sum or number of flows of all that are left is 2^64 or more, the session that has most of the
/// first one goes, and the first of several. The first is that of the first interval and key in the order of a table;
/// in a row, the sums come first, in the order of the counters.
///
/// The tables are of this plan, and the order of sessions is that of their names.
pub fn left_out(
    alloc: Global,
    plan: &Plan,
    tables: Vec<FlatTable>,
) -> Result<Vec<usize>, AllocError>
    requires fits { All (FitsPlan plan.now) tables.items }
    ensures { IfOk result (λ out.
        ForListsOf plan.now tables.items (AreLeftOutOf plan.now out.items)) }
{
    let count = plan.counters().len() + 1;
    let mut cursors = cursors_of(alloc, tables)?;
    let mut place = Row::empty(alloc);
    let mut out = Vec::new(alloc);
    'places: while let Some(first) = first_cursor(&cursors) {
        if let Some(index) = step(&mut cursors, first, count, &mut place)? {
            out.push(index)?;
        }
    }
    Ok(out)
}
