//! Decimal numbers in fields.

ghost use Rattle.std.specs.Prelude.{◌≡◌, ◌^◌};
ghost use Rattle.element_registry.specs.Rows.{number_below, enterprise_in};

use itoa::Buffer;
use std::str;

/// The numbers of elements are below this (RFC 7011, section 3.2).
const NUMBER_LIMIT: u32 = 0x8000;

/// The number of an element.
pub fn read_element_number(text: &[u8]) -> Option<u16>
    ensures { result ≡ number_below (2 ^ 15) text.now }
{
    let number = read_number(text)?;
    if number < NUMBER_LIMIT {
        Some(number as u16)
    } else {
        None
    }
}

/// The number of an enterprise: IANA's, if none is said.
pub fn read_enterprise(text: &[u8]) -> Option<u32>
    ensures { result ≡ enterprise_in text.now }
{
    if text.is_empty() {
        return Some(0);
    }
    read_number(text)
}

// A decimal number without a sign or leading zeros.
fn read_number(text: &[u8]) -> Option<u32>
    ensures { result ≡ number_below (2 ^ 32) text.now }
{
    let digits = str::from_utf8(text).ok()?;
    let number = digits.parse::<u32>().ok()?;
    if Buffer::new().format(number) == digits {
        Some(number)
    } else {
        None
    }
}
