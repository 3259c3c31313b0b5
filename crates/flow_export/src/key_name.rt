//! The names of elements and keys, which the heading of CSV and the objects of JSON share.

ghost use Rattle.std.specs.Prelude.{◌≡◌, ◌++◌, OnOk};
ghost use Rattle.element_registry.specs.Registries.{element_name};
ghost use Rattle.flow_export.specs.CsvText.{key_name, key_text};

use element_registry::Elements;
use flow_table::{Key, context_name};
use ipfix_wire::ElementId;
use std::alloc::AllocError;
use std::io::Write;

/// Appends an element's name.
pub fn append_name(
    elements: &Elements,
    element: ElementId,
    text: &mut Vec<u8>,
) -> Result<(), AllocError>
    ensures { OnOk result (text.new.items ≡ text.old.items ++ element_name elements.now element) }
{
    // A vector fails only if memory runs out.
    elements.write_name(element, text).map_err(|_| AllocError)
}

// Appends the name of a key's element: an element of context has its own, whatever files say.
fn append_key_name(
    elements: &Elements,
    element: ElementId,
    text: &mut Vec<u8>,
) -> Result<(), AllocError>
    ensures { OnOk result (text.new.items ≡ text.old.items ++ key_name elements.now element) }
{
    match context_name(element) {
        Some(name) => text.extend_from_slice(name.as_bytes()),
        None => append_name(elements, element, text),
    }
}

/// Appends a key's name: that of its element, and its prefix if it has one.
pub fn append_key(elements: &Elements, key: Key, text: &mut Vec<u8>) -> Result<(), AllocError>
    ensures { OnOk result (text.new.items ≡ text.old.items ++ key_text elements.now key) }
{
    append_key_name(elements, key.element, text)?;
    match key.prefix {
        // A vector fails only if memory runs out.
        Some(bits) => write!(text, "/{bits}").map_err(|_| AllocError),
        None => Ok(()),
    }
}
