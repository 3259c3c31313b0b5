//! What a file says of an element.

ghost use Rattle.std.specs.Prelude.{◌≡◌, find, map, option_map};
ghost use Rattle.std.specs.Option.{option_copied};
ghost use Rattle.element_registry.specs.Places.{AreNoted, standing};
ghost use Rattle.element_registry.specs.Registries.{is_of, is_named, shown, shown_if};

use crate::kind::ElementKind;
use crate::places::Places;
use ipfix_wire::ElementId;

/// What a file says of an element.
#[derive(Drop)]
pub struct Entry {
    pub element: ElementId,
    /// As it is written: with its enterprise, if that isn't IANA's.
    pub name: String,
    /// How its fields are read. A file's delta counter of an unsigned type is an unsigned64, since sums
    /// of its values may need 8 octets (RFC 7011, section 6.2).
    pub kind: ElementKind,
    /// Whether its values may be added up (RFC 7012, section 3.2.3).
    pub is_delta: bool,
}

// What stands at a place.
fn entry_at<'a>(entries: &'a [Entry], place: Option<&usize>) -> Option<&'a Entry>
    ensures { shown_if result
        ≡ standing (map shown entries.now) (option_copied place.entry) }
{
    entries.get(*place?)
}

/// The entry of an element.
pub fn find_known<'a>(
    entries: &'a [Entry],
    places: &Places,
    element: ElementId,
) -> Option<&'a Entry>
    requires { AreNoted places.now (map shown entries.now) }
    ensures { shown_if result ≡ find (is_of element) (map shown entries.now) }
{
    let place = places.by_element.get(&(element.pen, element.number));
    let entry = entry_at(entries, place)?;
    if entry.element == element {
        Some(entry)
    } else {
        None
    }
}

/// The element that is written so.
pub fn find_named(entries: &[Entry], places: &Places, name: &str) -> Option<ElementId>
    requires { AreNoted places.now (map shown entries.now) }
    ensures { result
        ≡ option_map (λ k. k.element) (find (is_named name.now) (map shown entries.now)) }
{
    let entry = entry_at(entries, places.by_name.get(name))?;
    if entry.name.as_str() == name {
        Some(entry.element)
    } else {
        None
    }
}
