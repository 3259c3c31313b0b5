//! The names of elements as text.

ghost use Rattle.std.specs.Prelude.{◌≡◌, ◌∷◌, ◌++◌, ℕ, List, Some, IfSome, IsSomeAnd, OnOk};
ghost use Rattle.ipfix_wire.specs.declared.specifier.ElementId.{ElementId};
ghost use Rattle.ipfix_elements.specs.Ascii.{dot, letter_e};
ghost use Rattle.ipfix_elements.specs.Names.{HasNoDot, IsElement, IsNameOf, numbered_text, name_text, numbered_element as numbered_in, element_named};
ghost use Rattle.ipfix_elements.specs.Writers.{Writes};

use crate::element::{listed_element, name_of};
use arrayvec::ArrayString;
use ipfix_wire::ElementId;
use itoa::Buffer;
use std::alloc::AllocError;
use std::io;
use std::io::Write;

/// The numbers of elements are below this (RFC 7011, section 3.2).
const NUMBER_LIMIT: u16 = 0x8000;

/// Writes an element's name, or `e<pen>.<number>` if it has none. An `Err` is the writer's.
pub fn write_name<W: Write>(element: ElementId, out: &mut W) -> io::Result<()>
    ensures { OnOk result (Writes W.contents out.old out.new (name_text element)) }
{
    match name_of(element) {
        Some(name) => out.write_all(name.as_bytes()),
        None => out.write_all(numbered_name(element).as_str().as_bytes()),
    }
}

/// Appends what `write_name` writes.
pub fn append_name(element: ElementId, out: &mut Vec<u8>) -> Result<(), AllocError>
    ensures { OnOk result (out.new.items ≡ out.old.items ++ name_text element) }
{
    // A vector fails only if memory runs out.
    write_name(element, out).map_err(|_| AllocError)
}

/// The element that a text names: by its name, or as `e<pen>.<number>` with both numbers in decimal
/// and without a sign or leading zeros, the first below 2^32 and the second below 2^15.
pub fn by_name(name: &str) -> Option<ElementId>
    // What is found has that name.
    ensures found { IfSome result (λ e. IsNameOf e name.now) }
    // Each name of an element is found.
    ensures only { (e : ElementId) → IsNameOf e name.now → result ≡ Some e }
    // What is written for an element is found again.
    ensures written { (e : ElementId) → IsElement e → name.now ≡ name_text e → result ≡ Some e }
    ensures exact { result ≡ element_named name.now }
{
    named_element(name)
}

// The element that has the name, or else the numbers.
#[tactic(auto, unfolding(crate::specs::Names::element_named))]
fn named_element(name: &str) -> Option<ElementId>
    ensures { result ≡ element_named name.now }
{
    match listed_element(name) {
        Some(element) => Some(element),
        None => numbered_element(name),
    }
}

// An element as `e<pen>.<number>`.
fn numbered_name(element: ElementId) -> ArrayString<17>
    ensures { result.bytes ≡ numbered_text element }
{
    let mut digits = Buffer::new();
    let mut name = ArrayString::new();
    name.push_str("e");
    name.push_str(digits.format(element.pen));
    name.push_str(".");
    name.push_str(digits.format(element.number));
    name
}

// The element whose numbers a text gives in the one form that is written.
fn numbered_element(name: &str) -> Option<ElementId>
    ensures { result ≡ numbered_in name.now }
{
    let element = numbers_of(name)?;
    if element.number < NUMBER_LIMIT && numbered_name(element).as_str() == name {
        Some(element)
    } else {
        None
    }
}

// The two numbers of a name in the numbered form, or else any.
fn numbers_of(name: &str) -> Option<ElementId>
    ensures { (e : ElementId) → IsElement e → name.now ≡ numbered_text e → result ≡ Some e }
{
    let (pen, number) = parts_of(name)?;
    Some(ElementId {
        pen: pen.parse().ok()?,
        number: number.parse().ok()?,
    })
}

// What stands between the `e` and the first dot, and what stands after that.
fn parts_of(name: &str) -> Option<(&str, &str)>
    ensures { (pen number : List ℕ) → HasNoDot pen → name.now ≡ letter_e ∷ (pen ++ dot ∷ number)
        → IsSomeAnd result (λ r. (r.0.now ≡ pen) × (r.1.now ≡ number)) }
{
    let numbers = name.strip_prefix('e')?;
    numbers.split_once('.')
}
