//! Bounds of numbers.

ghost use Rattle.std.specs.Prelude.{◌≡◌, ℕ, ◌+◌, ◌*◌, ◌^◌, ◌≤◌, MatchOption, length, slice_index_or};
ghost use Rattle.flow_rows.specs.Rows.{SomeTooLarge, words_cmp};

use std::cmp::Ordering;

/// The greatest number, or 0.
pub fn greatest(numbers: &[u64]) -> u64
    ensures { (i : ℕ) → slice_index_or numbers.now i 0 ≤ result }
{
    let mut most = 0;
    for i in 0..numbers.len() {
        most = most.max(numbers[i]);
    }
    most
}

/// The greatest sum of two numbers at one place, or `None` if a sum reaches 2^64.
pub fn greatest_sum(numbers: &[u64], more: &[u64]) -> Option<u64>
    requires { length numbers.now ≡ length more.now }
    ensures { MatchOption result
        (SomeTooLarge (λ i. slice_index_or numbers.now i 0 + slice_index_or more.now i 0))
        (λ most. (i : ℕ) → slice_index_or numbers.now i 0 + slice_index_or more.now i 0 ≤ most) }
{
    let mut most: u64 = 0;
    for i in 0..numbers.len() {
        let Some(sum) = numbers[i].checked_add(more[i]) else {
            return None;
        };
        most = most.max(sum);
    }
    Some(most)
}

fn join(high: u64, low: u64) -> u128
    ensures { result ≡ high * 2 ^ 64 + low }
{
    (high as u128) * 18_446_744_073_709_551_616 + (low as u128)
}

/// How two keys compare, two words at a time and with no branch that hangs on a word: a sort asks it
/// of keys whose order no processor foretells.
#[inline(always)]
pub fn order_words(a: &[u64], b: &[u64]) -> Ordering
    requires { length a.now ≡ length b.now }
    ensures { result ≡ words_cmp a.now b.now }
{
    let mut order = Ordering::Equal;
    for i in 0..a.len() / 2 {
        let at = 2 * i;
        order = order.then(join(a[at], a[at + 1]).cmp(&join(b[at], b[at + 1])));
    }
    if a.len() % 2 == 1 {
        let last = a.len() - 1;
        order = order.then(a[last].cmp(&b[last]));
    }
    order
}
