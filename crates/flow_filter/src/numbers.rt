//! Numbers and ranges of numbers in texts.

ghost use Rattle.std.specs.Prelude.{◌≡◌};
ghost use Rattle.flow_filter.specs.Texts as texts;

use crate::value_range::ValueRange;
use itoa::Buffer;

/// The numbers that a text says: `N`, or `M-N` from M to N, each decimal, without a sign or leading zeros,
/// and below 2^64.
pub fn numbers_in(text: &str) -> Option<ValueRange>
    ensures { result ≡ texts.numbers_in text.now }
{
    match text.split_once('-') {
        None => {
            let number = number_in(text)?;
            Some(ValueRange::Numbers {
                first: number,
                last: number,
            })
        }
        Some((first, last)) => range_of(number_in(first)?, number_in(last)?),
    }
}

// The numbers from one to another, which is not below it.
fn range_of(first: u64, last: u64) -> Option<ValueRange>
    ensures { result ≡ texts.range_of first last }
{
    if first <= last {
        Some(ValueRange::Numbers { first, last })
    } else {
        None
    }
}

// A decimal number below 2^64, without a sign or leading zeros.
fn number_in(text: &str) -> Option<u64>
    ensures { result ≡ texts.number_in text.now }
{
    let number = text.parse::<u64>().ok()?;
    if Buffer::new().format(number) == text {
        Some(number)
    } else {
        None
    }
}
