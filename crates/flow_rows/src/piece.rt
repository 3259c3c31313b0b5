//! One row, with no block of its own.

ghost use Rattle.std.specs.Prelude.{◌≡◌, ℕ, ◌+◌, ◌^◌, ◌<◌, ◌≤◌, MatchOption, length, slice_index_or};
ghost use Rattle.flow_rows.specs.Rows.{SomeTooLarge, added, row, row_sum, words_cmp};

use crate::numbers::{greatest, greatest_sum, order_words};
use std::cmp::Ordering;
use std::marker::Model;

/// The words of a key, and its numbers.
#[derive(Clone, Copy)]
pub struct Piece<const K: usize, const C: usize> {
    key: [u64; K],
    numbers: [u64; C],
}

impl<const K: usize, const C: usize> Model for Piece<K, C> {
    ghost use Rattle.flow_rows.specs.Rows.{Row, row};

    ghost Value = { Row };

    ghost view = { λ p. row p.key p.numbers };

    ghost inverse = { λ r. record { key = r.key; numbers = r.numbers } };
}

impl<const K: usize, const C: usize> Piece<K, C> {
    /// This key and these numbers.
    pub fn new(key: [u64; K], numbers: [u64; C]) -> Piece<K, C>
        ensures { result ≡ row key.entry numbers.entry }
    {
        Piece { key, numbers }
    }

    /// Its key.
    pub fn key(&self) -> [u64; K]
        ensures { result ≡ self.now.key }
    {
        self.key
    }

    /// Its numbers.
    pub fn numbers(&self) -> [u64; C]
        ensures { result ≡ self.now.numbers }
    {
        self.numbers
    }

    /// How the keys compare, word by word.
    pub fn order(&self, other: &Piece<K, C>) -> Ordering
        ensures { result ≡ words_cmp self.now.key other.now.key }
    {
        order_words(&self.key, &other.key)
    }

    /// Its greatest number.
    pub fn greatest(&self) -> u64
        ensures { (i : ℕ) → slice_index_or self.now.numbers i 0 ≤ result }
    {
        greatest(&self.numbers)
    }

    /// The greatest number of the sum with another row, or `None` if one reaches 2^64.
    pub fn greatest_sum(&self, other: &Piece<K, C>) -> Option<u64>
        ensures { MatchOption result
            (SomeTooLarge (λ i. slice_index_or self.now.numbers i 0
            + slice_index_or other.now.numbers i 0))
            (λ most. (i : ℕ) → slice_index_or self.now.numbers i 0
            + slice_index_or other.now.numbers i 0 ≤ most) }
    {
        greatest_sum(&self.numbers, &other.numbers)
    }

    /// Adds the numbers of a row of the same key.
    pub fn add(&mut self, other: &Piece<K, C>)
        requires { (i : ℕ) → slice_index_or self.old.numbers i 0
            + slice_index_or other.now.numbers i 0 < 2 ^ 64 }
        ensures { self.new ≡ row_sum self.old other.now }
    {
        add_numbers(&mut self.numbers, &other.numbers);
    }
}

/// Adds numbers place by place.
fn add_numbers(sums: &mut [u64], more: &[u64])
    requires long { length sums.old ≡ length more.now }
    requires small { (i : ℕ) → slice_index_or sums.old i 0 + slice_index_or more.now i 0 < 2 ^ 64 }
    ensures { sums.new ≡ added sums.old more.now }
{
    for i in 0..sums.len() {
        sums[i] += more[i];
    }
}
