//! Which elements a word fits.

ghost use Rattle.std.specs.Prelude.{◌≡◌};
ghost use Rattle.std.specs.Option.{option_copied};
ghost use Rattle.std.specs.Char.{is_ascii_digit};
ghost use Rattle.std.specs.List.{list_all};
ghost use Rattle.command_elements.specs.Fitting.{begins as begins_in, fits as fits_in, fits_word as fits_word_in, has_part as has_part_in, is_number_of as is_number_in, is_text_of as is_text_in};

use ipfix_elements::by_name;
use ipfix_wire::ElementId;
use itoa::Buffer;

/// Whether a word fits an element that has this name: a word of digits is its number, whatever its enterprise;
/// each other one is its number with its enterprise, `e<pen>.<number>`, or a part of its name, in any letter
/// case. Without a word each element fits.
pub fn fits(word: Option<&str>, element: ElementId, name: &str) -> bool
    ensures { result ≡ fits_in (option_copied word.entry) element name.now }
{
    match word {
        Some(word) => fits_word(word, element, name),
        None => true,
    }
}

fn fits_word(word: &str, element: ElementId, name: &str) -> bool
    ensures { result ≡ fits_word_in word.now element name.now }
{
    if are_digits(word.as_bytes()) {
        is_number_of(word, element)
    } else {
        is_text_of(word, element) || has_part(name.as_bytes(), word.as_bytes())
    }
}

fn are_digits(mut octets: &[u8]) -> bool
    ensures { result ≡ list_all is_ascii_digit octets.entry.now }
{
    while let [octet, rest @ ..] = octets {
        if !octet.is_ascii_digit() {
            return false;
        }
        octets = rest;
    }
    true
}

fn is_number_of(word: &str, element: ElementId) -> bool
    ensures { result ≡ is_number_in word.now element }
{
    Buffer::new().format(element.number) == word
}

fn is_text_of(word: &str, element: ElementId) -> bool
    ensures { result ≡ is_text_in word.now element }
{
    match by_name(word) {
        Some(named) => named == element,
        None => false,
    }
}

fn has_part(mut text: &[u8], word: &[u8]) -> bool
    ensures { result ≡ has_part_in text.entry.now word.now }
{
    while let [_, rest @ ..] = text {
        if begins(text, word) {
            return true;
        }
        text = rest;
    }
    word.is_empty()
}

fn begins(text: &[u8], word: &[u8]) -> bool
    ensures { result ≡ begins_in text.now word.now }
{
    let (start, _) = text.split_at(word.len().min(text.len()));
    start.eq_ignore_ascii_case(word)
}
