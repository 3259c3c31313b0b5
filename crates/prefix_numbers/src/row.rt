//! Rows of a prefix and its number.

ghost use Rattle.std.specs.Prelude.{◌≡◌, ◌≢◌, ◌<◌, ◌^◌, ℕ, decimal};
ghost use Rattle.std.specs.Option.{MatchOption};
ghost use Rattle.prefix_numbers.specs.Rows.{number_text, prefix_word, ReadsPrefix, ReadsRow};

use crate::error::MapFault;
use itoa::Buffer;
use network_prefixes::{Prefix, PrefixFault};

/// A prefix and its number.
#[derive(Clone, Copy, Debug, PartialEq, Eq)]
pub struct NumberedPrefix {
    pub prefix: Prefix,
    pub number: u32,
}

/// The prefix and the number of a row, or its first fault.
pub(crate) fn read_row(line: &str) -> Result<NumberedPrefix, MapFault>
    ensures { ReadsRow line.now result }
{
    let (word, text) = cut_at_comma(line);
    let prefix = read_prefix(word)?;
    match number_in(text) {
        Some(number) => Ok(NumberedPrefix { prefix, number }),
        None => Err(MapFault::NoNumber),
    }
}

// What a line has before its first comma and after it: all of it and nothing, if it has none.
fn cut_at_comma(line: &str) -> (&str, &str)
    ensures before { result.0.now ≡ prefix_word line.now }
    ensures after { result.1.now ≡ number_text line.now }
{
    match line.split_once(',') {
        Some(parts) => parts,
        None => (line, ""),
    }
}

fn read_prefix(word: &str) -> Result<Prefix, MapFault>
    ensures { ReadsPrefix word.now result }
{
    match Prefix::parse(word) {
        Ok(prefix) => Ok(prefix),
        Err(PrefixFault::NotAPrefix) => Err(MapFault::NoPrefix),
        Err(PrefixFault::BitsAfter) => Err(MapFault::BitsAfter),
    }
}

// A decimal number below 2^32, without a sign or leading zeros.
fn number_in(text: &str) -> Option<u32>
    ensures { MatchOption result
        ((n : ℕ) → n < 2 ^ 32 → text.now ≢ decimal n)
        (λ n. text.now ≡ decimal n) }
{
    match text.parse::<u32>() {
        Ok(number) if Buffer::new().format(number) == text => Some(number),
        _ => None,
    }
}
