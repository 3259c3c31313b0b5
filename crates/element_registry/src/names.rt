//! Names and types in fields.

ghost use Rattle.std.specs.Prelude.{◌≡◌, IfOk, string_bytes, option_map, Some, None, if◌then◌else◌};
ghost use Rattle.std.specs.List.{list_all};
ghost use Rattle.element_registry.specs.Rows.{full_name as full_name_of, begins_with_letter as begins, is_name as is_name_in, is_name_octet as is_octet, is_reserved as is_reserved_in};

use itoa::Buffer;
use std::alloc::{AllocError, Global};
use std::str;

/// The longest name.
const NAME_LIMIT: usize = 64;

/// The name in a field, if it is one.
pub fn read_name(field: &[u8]) -> Option<&str>
    ensures { option_map (λ n. n.now) result
        ≡ (if is_name_in field.now then Some field.now else None) }
{
    let name = str::from_utf8(field).ok()?;
    if is_name(field) { Some(name) } else { None }
}

fn is_name(text: &[u8]) -> bool
    ensures { result ≡ is_name_in text.now }
{
    begins_with_letter(text)
        && are_name_octets(text)
        && text.len() <= NAME_LIMIT
        && !is_reserved(text)
}

fn begins_with_letter(text: &[u8]) -> bool
    ensures { result ≡ begins text.now }
{
    match text {
        [first, ..] => first.is_ascii_alphabetic(),
        [] => false,
    }
}

fn are_name_octets(mut text: &[u8]) -> bool
    ensures { result ≡ list_all is_octet text.entry.now }
{
    while let [octet, rest @ ..] = text {
        if !is_name_octet(*octet) {
            return false;
        }
        text = rest;
    }
    true
}

fn is_name_octet(octet: u8) -> bool
    ensures { result ≡ is_octet octet }
{
    octet.is_ascii_alphanumeric() || octet == b'_' || octet == b'-'
}

// What stands in a heading or a row beside the elements.
fn is_reserved(text: &[u8]) -> bool
    ensures { result ≡ is_reserved_in text.now }
{
    text == b"start".as_slice() || text == b"end".as_slice() || text == b"flows".as_slice()
}

/// A name as it is written: with its enterprise, if that isn't IANA's.
pub fn full_name(alloc: Global, pen: u32, name: &str) -> Result<String, AllocError>
    ensures { IfOk result (λ text. string_bytes text ≡ full_name_of pen name.now) }
{
    let mut text = String::new(alloc);
    if pen != 0 {
        text.push_str("e")?;
        text.push_str(Buffer::new().format(pen))?;
        text.push_str(".")?;
    }
    text.push_str(name)?;
    Ok(text)
}
