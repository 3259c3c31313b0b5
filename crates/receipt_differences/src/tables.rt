//! Tables that differ from what their receipts say.

ghost use Rattle.std.specs.Prelude.{◌≡◌, [], bytes_eq, map};
ghost use Rattle.sha2.specs.Sha256.{sha256};
ghost use Rattle.report_writing.specs.Writing.{Tells};
ghost use Rattle.table_receipts.specs.Values.{sum_value, table_value};
ghost use Rattle.receipt_differences.specs.DifferenceLines.{number_differs, number_line};
ghost use Rattle.receipt_differences.specs.Differences.{rows_differ, sum_differs, sum_name, sums_differ, table_differs};

use crate::numbers::{write_other, write_other_unless, write_unless_equal, write_unless_same};
use report_writing::WriteLines;
use sha2::{Digest, Sha256};
use std::io;
use table_receipts::{CounterSum, TableReceipt};

/// Writes a line if a table has not as many octets as its receipt says, and one if their SHA-256 is another.
pub fn write_table_differences<E: WriteLines>(
    said: &TableReceipt,
    table: &[u8],
    err: &mut E,
) -> io::Result<()>
    ensures { Tells E.lines err.old err.new result
        (table_differs (table_value said.now) table.now) }
{
    write_unless_equal("table: octets", table.len() as u64, said.octets, err)?;
    write_other_unless(has_digest(said, table), "table: SHA-256", err)
}

fn has_digest(said: &TableReceipt, table: &[u8]) -> bool
    ensures { result ≡ bytes_eq (sha256 table.now) said.now.sha256 }
{
    Sha256::digest(table) == said.sha256
}

/// Writes a line for each number of the rows of a table, and each sum over them, that is not the receipt's.
pub fn write_row_differences<E: WriteLines>(
    found: &TableReceipt,
    said: &TableReceipt,
    err: &mut E,
) -> io::Result<()>
    ensures { Tells E.lines err.old err.new result
        (rows_differ (table_value found.now) (table_value said.now)) }
{
    write_unless_equal("table: rows", found.rows, said.rows, err)?;
    write_sums(&found.sums, &said.sums, err)?;
    write_unless_same("table: flows", found.flows, said.flows, err)
}

fn write_sums<E: WriteLines>(
    found: &[CounterSum],
    said: &[CounterSum],
    err: &mut E,
) -> io::Result<()>
    ensures { Tells E.lines err.old err.new result
        (sums_differ (map sum_value found.now) (map sum_value said.now)) }
{
    match found {
        [] => write_unless_empty(said, err),
        [first, found @ ..] => match said {
            [] => write_other("table: counters", err),
            [other, said @ ..] => {
                write_sum(first, other, err)?;
                write_sums(found, said, err)
            }
        },
    }
}

fn write_unless_empty<E: WriteLines>(said: &[CounterSum], err: &mut E) -> io::Result<()>
    ensures { Tells E.lines err.old err.new result
        (sums_differ [] (map sum_value said.now)) }
{
    match said {
        [] => Ok(()),
        [_, ..] => write_other("table: counters", err),
    }
}

fn write_sum<E: WriteLines>(found: &CounterSum, said: &CounterSum, err: &mut E) -> io::Result<()>
    ensures { Tells E.lines err.old err.new result
        (sum_differs (sum_value found.now) (sum_value said.now)) }
{
    if found.name.as_str() == said.name.as_str() {
        write_sum_unless_same(said.name.as_str(), found.sum, said.sum, err)
    } else {
        write_other("table: counters", err)
    }
}

#[tactic(auto, unfolding(crate::specs::DifferenceLines::number_differs))]
fn write_sum_unless_same<E: WriteLines>(
    name: &str,
    found: u128,
    said: u128,
    err: &mut E,
) -> io::Result<()>
    ensures { Tells E.lines err.old err.new result
        (number_differs (sum_name name.now) found said) }
{
    if found == said {
        Ok(())
    } else {
        write_sum_number(name, found, said, err)
    }
}

#[tactic(auto, unfolding(crate::specs::DifferenceLines::number_line))]
fn write_sum_number<E: WriteLines>(
    name: &str,
    found: u128,
    said: u128,
    err: &mut E,
) -> io::Result<()>
    ensures { Tells E.lines err.old err.new result
        (number_line (sum_name name.now) found said) }
{
    writeln!(
        err,
        "collectd: verify: table: sum of {name} {found}, in the receipt {said}"
    )
}
