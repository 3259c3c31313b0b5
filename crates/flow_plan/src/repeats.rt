//! Elements that stand twice among the keys and the counters of a plan.

ghost use Rattle.std.specs.Prelude.{◌≡◌, [], IfOk};
ghost use Rattle.std.specs.List.{list_any};
ghost use Rattle.flow_plan.specs.Blames.{again_from, elements_of as elements_in, has_one_element as has_one_element_in};

use flow_table::Key;
use ipfix_wire::ElementId;
use std::alloc::{AllocError, Global};

/// The place of the first element that stands again, among the keys and the counters after them.
pub fn first_repeat(
    alloc: Global,
    keys: &[Key],
    counters: &[ElementId],
) -> Result<Option<usize>, AllocError>
    ensures { IfOk result (λ place. place ≡ again_from [] 0 (elements_in keys.now counters.now)) }
{
    let elements = elements_of(alloc, keys, counters)?;
    Ok(first_again(&elements))
}

// The keys, and then the counters as keys without a prefix.
fn elements_of(alloc: Global, keys: &[Key], counters: &[ElementId]) -> Result<Vec<Key>, AllocError>
    ensures { IfOk result (λ elements. elements.items ≡ elements_in keys.now counters.now) }
{
    let mut elements = keys.to_vec(alloc)?;
    for counter in counters {
        elements.push(Key {
            element: *counter,
            prefix: None,
        })?;
    }
    Ok(elements)
}

fn first_again(keys: &[Key]) -> Option<usize>
    ensures { result ≡ again_from [] 0 keys.now }
{
    for (index, key) in keys.iter().enumerate() {
        if is_again(*key, &keys[..index]) {
            return Some(index);
        }
    }
    None
}

// Whether one of these keys has the key's element.
fn is_again(key: Key, before: &[Key]) -> bool
    ensures { result ≡ list_any (has_one_element_in key) before.now }
{
    before.iter().any(|other| has_one_element(key, *other))
}

// Whether keys have one element, in the records that are read or in those that are exported.
fn has_one_element(left: Key, right: Key) -> bool
    ensures { result ≡ has_one_element_in left right }
{
    left.element == right.element || left.exported_element() == right.exported_element()
}
