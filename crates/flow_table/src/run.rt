//! The rows of finished totals, with no block of memory for each.

ghost use Rattle.std.specs.Prelude.{◌≡◌, ◌^◌, ◌<◌, suc, length, OnOk};
ghost use Rattle.flow_rows.specs.Rows.{row as flat_row};
ghost use Rattle.flow_table.specs.FlatTables.{IsRowFrom, run_in};
ghost use Rattle.flow_table.specs.SameTables.{AtIndex};
ghost use Rattle.flow_table.specs.Words.{first_of, nth};

use crate::table::Row;
use crate::words::{word_at, words_after, write_cells};
use flow_rows::Piece;
use ipfix_elements::Kind;
use std::alloc::AllocError;

/// Rows in order, in one of the forms that totals are kept in.
#[derive(Drop)]
pub enum Run {
    Two(Vec<Piece<2, 2>>),
    Four(Vec<Piece<4, 2>>),
    Six(Vec<Piece<6, 3>>),
    Nine(Vec<Piece<9, 5>>),
    Most(Vec<Piece<17, 5>>),
}

/// Leaves the sums that follow the number of flows in `sums`.
fn write_sums(numbers: &[u64], counters: usize, sums: &mut Vec<u64>) -> Result<(), AllocError>
    requires { counters < 2 ^ 63 }
    ensures { OnOk result (sums.new.items ≡ first_of counters (λ i. nth numbers.now (suc i))) }
{
    sums.clear();
    for i in 0..counters {
        sums.push(word_at(numbers, i + 1))?;
    }
    Ok(())
}

/// Leaves the row of words and numbers in `row`.
fn write_row(
    kinds: &[Kind],
    counters: usize,
    words: &[u64],
    numbers: &[u64],
    row: &mut Row,
) -> Result<(), AllocError>
    requires { counters < 2 ^ 63 }
    ensures { OnOk result (IsRowFrom kinds.now counters row.new (flat_row words.now numbers.now)) }
{
    row.interval = word_at(words, 0);
    write_cells(kinds, words_after(words, 1), &mut row.key)?;
    write_sums(numbers, counters, &mut row.sums)?;
    row.flows = word_at(numbers, 0);
    Ok(())
}

fn write_piece<const K: usize, const C: usize>(
    piece: &Piece<K, C>,
    kinds: &[Kind],
    counters: usize,
    row: &mut Row,
) -> Result<(), AllocError>
    requires { counters < 2 ^ 63 }
    ensures { OnOk result (IsRowFrom kinds.now counters row.new piece.now) }
{
    write_row(kinds, counters, &piece.key(), &piece.numbers(), row)
}

impl Run {
    /// The number of rows.
    pub fn len(&self) -> usize
        ensures value { result ≡ length (run_in self.now) }
        ensures small { result < 2 ^ 63 }
    {
        match self {
            Run::Two(rows) => rows.len(),
            Run::Four(rows) => rows.len(),
            Run::Six(rows) => rows.len(),
            Run::Nine(rows) => rows.len(),
            Run::Most(rows) => rows.len(),
        }
    }

    /// Leaves the row at an index, under kinds and so many counters, in `row`.
    pub fn write(
        &self,
        index: usize,
        kinds: &[Kind],
        counters: usize,
        row: &mut Row,
    ) -> Result<(), AllocError>
        requires within { index < length (run_in self.now) }
        requires few { counters < 2 ^ 63 }
        ensures { OnOk result
            (AtIndex (run_in self.now) index (IsRowFrom kinds.now counters row.new)) }
    {
        match self {
            Run::Two(rows) => write_piece(&rows[index], kinds, counters, row),
            Run::Four(rows) => write_piece(&rows[index], kinds, counters, row),
            Run::Six(rows) => write_piece(&rows[index], kinds, counters, row),
            Run::Nine(rows) => write_piece(&rows[index], kinds, counters, row),
            Run::Most(rows) => write_piece(&rows[index], kinds, counters, row),
        }
    }
}
