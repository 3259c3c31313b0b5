//! Rows of the totals under a plan, with no block of memory for each.

ghost use Rattle.std.specs.Prelude.{◌≡◌, ◌+◌, ◌*◌, ◌^◌, ◌<◌, ◌∷◌, ℕ, List, IfOk, OnOk, OnErr};
ghost use Rattle.flow_rows.specs.Rows.{IsRun, Small, total_at};
ghost use Rattle.flow_table.specs.FlatTables.{run_in};
ghost use Rattle.flow_table.specs.Rows.{AddTooLarge, AddsRow, AddsTo, AreAlike, AreRowsOf, IsSum, IsTooLargeWithRow, SameNumbers, TooLargeWith, number_at, row_in, rows_in, width_of};
ghost use Rattle.flow_table.specs.TableFaults.{OnSumTooLarge};

use crate::plan::Plan;
use crate::run::Run;
use crate::table_fault::TableFault;
use crate::words::{count_words, padded_words};
use flow_rows::{AddError, FlatRows, Piece};
use std::alloc::{AllocError, Global};

/// Rows by the words of an interval and a key, in the smallest of five forms that has room for them.
/// Their numbers are that of the flows, and then the sums of the counters.
#[derive(Drop)]
pub enum Rows {
    /// Two words, and one counter.
    Two(FlatRows<2, 2>),
    /// Up to four words, and one counter: a key and an exporter.
    Four(FlatRows<4, 2>),
    /// Up to six words, and two counters.
    Six(FlatRows<6, 3>),
    /// Up to nine words, and four counters.
    Nine(FlatRows<9, 5>),
    /// As many words and counters as a plan may have.
    Most(FlatRows<17, 5>),
}

/// Adds numbers to a row.
fn add_row<const K: usize, const C: usize>(
    rows: &mut FlatRows<K, C>,
    interval: u64,
    words: &[u64],
    flows: u64,
    sums: &[u64],
) -> Result<(), TableFault>
    requires fits { 8 * K + 8 * C < 2 ^ 63 }
    requires deep { 0 < C }
    requires some { 0 < flows }
    ensures ok { OnOk result
        (AddsTo rows.old (row_in K C interval words.now flows sums.now) rows.new) }
    ensures small { Small (total_at rows.new) }
    ensures err { OnErr result (SameNumbers (total_at rows.new) (total_at rows.old)) }
    ensures large { OnSumTooLarge result (IsTooLargeWithRow (total_at rows.old)
        (row_in K C interval words.now flows sums.now)) }
{
    let piece = Piece::new(padded_words(interval, words), padded_words(flows, sums));
    match rows.add(&piece) {
        Ok(()) => Ok(()),
        Err(AddError::SumTooLarge) => Err(TableFault::SumTooLarge),
        Err(AddError::OutOfMemory) => Err(TableFault::OutOfMemory),
    }
}

/// The rows of both. After `SumTooLarge` a number is too large at the words that are left in `words`.
fn merge_rows<const K: usize, const C: usize>(
    rows: FlatRows<K, C>,
    others: FlatRows<K, C>,
    words: &mut Vec<u64>,
) -> Result<FlatRows<K, C>, TableFault>
    requires fits { 8 * K + 8 * C < 2 ^ 63 }
    ensures ok { IfOk result (λ merged. IsSum rows.entry others.entry merged) }
    ensures small { IfOk result (λ merged. Small (total_at merged)) }
    ensures large { OnSumTooLarge result (AddTooLarge rows.entry others.entry words.new.items) }
{
    match rows.merge(others, words) {
        Ok(both) => Ok(both),
        Err(AddError::SumTooLarge) => Err(TableFault::SumTooLarge),
        Err(AddError::OutOfMemory) => Err(TableFault::OutOfMemory),
    }
}

impl Rows {
    /// No rows, in the form for a plan.
    pub fn new(alloc: Global, plan: &Plan) -> Rows
        ensures rows { AreRowsOf plan.now result }
        ensures none { (q : List ℕ) (i : ℕ) → number_at result q i ≡ 0 }
    {
        let numbers = plan.counters().len() + 1;
        let words = count_words(plan.kinds()) + 1;
        if words <= 2 && numbers <= 2 {
            Rows::Two(FlatRows::new(alloc))
        } else if words <= 4 && numbers <= 2 {
            Rows::Four(FlatRows::new(alloc))
        } else if words <= 6 && numbers <= 3 {
            Rows::Six(FlatRows::new(alloc))
        } else if words <= 9 {
            Rows::Nine(FlatRows::new(alloc))
        } else {
            Rows::Most(FlatRows::new(alloc))
        }
    }

    /// Adds flows and sums to the row of an interval and the words of a key. An `Err` changes no number.
    pub fn add(
        &mut self,
        interval: u64,
        words: &[u64],
        flows: u64,
        sums: &[u64],
    ) -> Result<(), TableFault>
        requires { 0 < flows }
        ensures ok { OnOk result
            (AddsRow self.old (interval ∷ words.now) (flows ∷ sums.now) self.new) }
        ensures small { Small (number_at self.new) }
        ensures alike { AreAlike self.new self.old }
        ensures err { OnErr result (SameNumbers (number_at self.new) (number_at self.old)) }
        ensures large { TooLargeWith result self.old (interval ∷ words.now) (flows ∷ sums.now) }
    {
        match self {
            Rows::Two(rows) => add_row(rows, interval, words, flows, sums),
            Rows::Four(rows) => add_row(rows, interval, words, flows, sums),
            Rows::Six(rows) => add_row(rows, interval, words, flows, sums),
            Rows::Nine(rows) => add_row(rows, interval, words, flows, sums),
            Rows::Most(rows) => add_row(rows, interval, words, flows, sums),
        }
    }

    /// The rows of both, which are to be of one form: where they are not, the fault is `OutOfMemory`. Those
    /// of one plan are. After `SumTooLarge` a number is too large at the words that are left in `words`.
    pub fn merge(self, others: Rows, words: &mut Vec<u64>) -> Result<Rows, TableFault>
        ensures ok { IfOk result (λ merged. IsSum (rows_in self) (rows_in others) (rows_in merged)) }
        ensures small { IfOk result (λ merged. Small (number_at merged)) }
        ensures alike { IfOk result
            (λ merged. AreAlike merged self × (width_of self ≡ width_of others)) }
        ensures wide { OnSumTooLarge result (width_of self ≡ width_of others) }
        ensures large { OnSumTooLarge result
            (AddTooLarge (rows_in self) (rows_in others) words.new.items) }
    {
        match (self, others) {
            (Rows::Two(rows), Rows::Two(others)) => Ok(Rows::Two(merge_rows(rows, others, words)?)),
            (Rows::Four(rows), Rows::Four(others)) => Ok(Rows::Four(merge_rows(
                rows, others, words,
            )?)),
            (Rows::Six(rows), Rows::Six(others)) => Ok(Rows::Six(merge_rows(rows, others, words)?)),
            (Rows::Nine(rows), Rows::Nine(others)) => Ok(Rows::Nine(merge_rows(
                rows, others, words,
            )?)),
            (Rows::Most(rows), Rows::Most(others)) => Ok(Rows::Most(merge_rows(
                rows, others, words,
            )?)),
            _ => Err(TableFault::OutOfMemory),
        }
    }

    /// All rows, in order.
    pub fn finish(self) -> Result<Run, AllocError>
        ensures total { IfOk result
            (λ run. SameNumbers (total_at (run_in run)) (number_at self)) }
        ensures run { IfOk result (λ run. IsRun (run_in run)) }
    {
        match self {
            Rows::Two(rows) => Ok(Run::Two(rows.finish()?)),
            Rows::Four(rows) => Ok(Run::Four(rows.finish()?)),
            Rows::Six(rows) => Ok(Run::Six(rows.finish()?)),
            Rows::Nine(rows) => Ok(Run::Nine(rows.finish()?)),
            Rows::Most(rows) => Ok(Run::Most(rows.finish()?)),
        }
    }
}
