//! Where the fields of a template's records stand, by their elements.

ghost use Rattle.std.specs.Prelude.{◌≡◌, ℕ, ◌<◌, ◌^◌, ◌==◌, if◌then◌else◌, Some, None, OnOk, option_copied};
ghost use Rattle.std.specs.Option.{option_or};
ghost use Rattle.std.specs.Ordering.{nat_cmp};
ghost use Rattle.std.specs.BTreeMap.{get};
ghost use Rattle.ipfix_wire.specs.declared.specifier.ElementId.{ElementId};
ghost use Rattle.ipfix_message.specs.Fields.{same_element};
ghost use Rattle.ipfix_message.specs.Layouts;
ghost use Rattle.ipfix_message.specs.Spots.{AreSpotsOf, filled};

use ipfix_wire::ElementId;
use std::alloc::{AllocError, Global};
use std::collections::BTreeMap;

// How many elements have a spot at most: more than templates mostly have, and a prime.
const SPOTS: usize = 17;

// The key of a vacant spot, which is no element's.
const VACANT: u64 = u64::MAX;

/// Where a field stands in each record of a template.
#[derive(Clone, Copy, Debug)]
pub struct FieldPlace {
    /// How many fields of variable length stand before it.
    pub before: u16,
    /// The octets of the fields of fixed width since the last of those.
    pub offset: u32,
    /// Its width.
    pub width: u16,
}

// Where an element's first field stands, by the element's key.
#[derive(Clone, Copy, Debug)]
struct Spot {
    key: u64,
    place: FieldPlace,
}

/// Where the first field of each element stands.
#[derive(Debug, Drop)]
pub struct Places {
    // Each element may be in only one of them, by its key, and the first that comes takes it.
    spots: [Spot; SPOTS],
    // By their keys, all of them.
    all: BTreeMap<u64, FieldPlace>,
}

// The number by which an element is sought.
fn key_of(element: ElementId) -> u64
    ensures { result ≡ Layouts.key_of element }
{
    u64::from(element.pen) * 65536 + u64::from(element.number)
}

// Notes the place of a key, unless it has one.
fn insert_first(
    places: &mut BTreeMap<u64, FieldPlace>,
    key: u64,
    place: FieldPlace,
) -> Result<(), AllocError>
    ensures { OnOk result ((k : ℕ) → get nat_cmp places.new k
        ≡ option_or (get nat_cmp places.old k) (if k == key then Some place else None)) }
{
    if !places.contains_key(&key) {
        places.insert(key, place)?;
    }
    Ok(())
}

// Lets a key have its spot, if that is vacant.
fn fill(spots: &mut [Spot; SPOTS], key: u64, place: FieldPlace)
    ensures { spots.new ≡ filled spots.old key place }
{
    let at = key as usize % SPOTS;
    if spots[at].key == VACANT {
        spots[at] = Spot { key, place };
    }
}

impl Places {
    /// Of no elements.
    pub fn new(alloc: Global) -> Self
        ensures none { (k : ℕ) → get nat_cmp result.all k ≡ None }
        ensures spots { AreSpotsOf result.spots result.all }
    {
        let place = FieldPlace {
            before: 0,
            offset: 0,
            width: 0,
        };
        Places {
            spots: [Spot { key: VACANT, place }; SPOTS],
            all: BTreeMap::new(alloc),
        }
    }

    /// Notes where a field of an element stands, unless one stands before it.
    pub fn note_first(&mut self, element: ElementId, place: FieldPlace) -> Result<(), AllocError>
        requires { AreSpotsOf self.old.spots self.old.all }
        ensures first { OnOk result ((e : ElementId) → e.number < 2 ^ 16
            → get nat_cmp self.new.all (Layouts.key_of e)
            ≡ option_or (get nat_cmp self.old.all (Layouts.key_of e))
            (if same_element element e then Some place else None)) }
        ensures spots { OnOk result (AreSpotsOf self.new.spots self.new.all) }
    {
        let key = key_of(element);
        insert_first(&mut self.all, key, place)?;
        fill(&mut self.spots, key, place);
        Ok(())
    }

    /// Where the first field of an element stands. Most elements, and most that the template doesn't
    /// have, cost a look at one spot.
    #[inline(always)]
    pub fn find(&self, element: ElementId) -> Option<&FieldPlace>
        requires { AreSpotsOf self.now.spots self.now.all }
        ensures { option_copied result ≡ get nat_cmp self.now.all (Layouts.key_of element) }
    {
        let key = key_of(element);
        let spot = &self.spots[key as usize % SPOTS];
        if spot.key == key {
            return Some(&spot.place);
        }
        if spot.key == VACANT {
            return None;
        }
        self.search(key)
    }

    // Where the field of a key stands whose spot has another.
    #[inline(never)]
    fn search(&self, key: u64) -> Option<&FieldPlace>
        ensures { option_copied result ≡ get nat_cmp self.now.all key }
    {
        self.all.get(&key)
    }
}
