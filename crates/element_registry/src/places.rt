//! Where the elements of files stand among them.

ghost use Rattle.std.specs.Prelude.{◌≡◌, ◌∷◌, ◌++◌, [], false, find, is_some, map, OnOk, OnErr};
ghost use Rattle.element_registry.specs.Places.{AreNoted};
ghost use Rattle.element_registry.specs.Registries.{is_of, is_named, shown};

use crate::entry::Entry;
use std::alloc::{AllocError, Global};
use std::collections::BTreeMap;

/// Where the elements of files stand among them, by their numbers and by their names.
#[derive(Drop)]
pub struct Places {
    /// By the enterprise, and then by the number.
    pub by_element: BTreeMap<(u32, u16), usize>,
    pub by_name: BTreeMap<String, usize>,
}

impl Places {
    /// Those of no elements.
    pub fn new(alloc: Global) -> Places
        ensures { AreNoted result [] }
    {
        Places {
            by_element: BTreeMap::new(alloc),
            by_name: BTreeMap::new(alloc),
        }
    }

    /// Notes that an entry is to follow these, if none of them has its numbers or its name. At
    /// an `Err` these are noted still.
    pub fn note(&mut self, entries: &[Entry], entry: &Entry) -> Result<(), AllocError>
        requires noted { AreNoted self.old (map shown entries.now) }
        requires number { is_some (find (is_of entry.now.element) (map shown entries.now)) ≡ false }
        requires name { is_some (find (is_named (shown entry.now).name) (map shown entries.now)) ≡ false }
        ensures ok { OnOk result (AreNoted self.new (map shown entries.now ++ shown entry.now ∷ [])) }
        ensures err { OnErr result (AreNoted self.new (map shown entries.now)) }
    {
        let name = entry.name.clone()?;
        let element = (entry.element.pen, entry.element.number);
        self.by_element.insert(element, entries.len())?;
        self.by_name.insert(name, entries.len())?;
        Ok(())
    }
}
