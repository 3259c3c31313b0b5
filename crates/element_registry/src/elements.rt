//! The elements that are known: the built-in ones, and those of files.

use crate::entry::{Entry, find_known, find_named};
use crate::fault::ElementsFault;
use crate::kind::ElementKind;
use crate::places::Places;
use ipfix_elements::{Kind, by_name, kind_of, name_of, write_name};
use ipfix_wire::ElementId;
use std::alloc::Global;
use std::io;
use std::io::Write;
use std::marker::Model;

/// As many elements of files are kept.
const MOST: usize = 16384;

/// The elements that are known: the built-in ones, and those of files.
#[derive(Drop)]
pub struct Elements {
    entries: Vec<Entry>,
    // Where they stand, so that none is sought from first to last.
    places: Places,
}

impl Model for Elements {
    ghost use Rattle.std.specs.Prelude.{List, map};
    ghost use Rattle.element_registry.specs.Registries.{Known, IsRegistry, shown};
    ghost use Rattle.element_registry.specs.Places.{AreNoted};

    ghost Value = { List Known };

    ghost view = { λ e. map shown e.entries.items };

    ghost invariant = { λ e. IsRegistry (map shown e.entries.items)
        × AreNoted e.places (map shown e.entries.items) };
}

impl Elements {
    ghost use Rattle.std.specs.Prelude.{◌≡◌, true, [], find, is_none, map, option_map, OnOk, OnErr, IfErr, Ok};
    ghost use Rattle.ipfix_elements.specs.Elements.{entry_of};
    ghost use Rattle.element_registry.specs.Faults.{Fails};
    ghost use Rattle.element_registry.specs.Files.{with_entry};
    ghost use Rattle.ipfix_elements.specs.Writers.{Writes};
    ghost use Rattle.element_registry.specs.Registries.{IsRegistry, is_of, shown, shown_if, element_kind, listed_name, element_name, element_by_name};

    /// The built-in elements alone.
    pub fn built_in(alloc: Global) -> Elements
        ensures { result ≡ [] }
    {
        Elements {
            entries: Vec::new(alloc),
            places: Places::new(alloc),
        }
    }

    /// Adds an element, if none is known with its numbers or its name. At an `Err` nothing is added.
    #[tactic(auto, using(crate::proofs::Adding::added))]
    pub fn add(&mut self, entry: Entry) -> Result<(), ElementsFault>
        requires { is_none (entry_of entry.element) ≡ true }
        ensures ok { OnOk result (with_entry self.old (shown entry) ≡ Ok self.new) }
        ensures fault { IfErr result (λ fault. Fails fault (with_entry self.old (shown entry))) }
        ensures kept { OnErr result (self.new ≡ self.old) }
    {
        if self.find_entry(entry.element).is_some() {
            return Err(ElementsFault::NumberTwice);
        }
        if self.by_name(entry.name.as_str()).is_some() {
            return Err(ElementsFault::NameTwice);
        }
        if self.entries.len() >= MOST {
            return Err(ElementsFault::TooMany);
        }
        self.places.note(&self.entries, &entry)?;
        self.entries.push(entry)?;
        Ok(())
    }

    /// What the files say, in the order in which it was added: nothing of the built-in elements.
    pub fn entries(&self) -> &[Entry]
        ensures { map shown result.now ≡ self.now }
    {
        self.entries.as_slice()
    }

    /// What the files say of an element, of which they say nothing twice; of the built-in ones nothing.
    pub fn find_entry(&self, element: ElementId) -> Option<&Entry>
        ensures found { shown_if result ≡ find (is_of element) self.now }
        ensures once { IsRegistry self.now }
    {
        find_known(&self.entries, &self.places, element)
    }

    /// The kind that an element's fields are read by: octets for each element that is not known.
    pub fn kind_of(&self, element: ElementId) -> ElementKind
        ensures { result ≡ element_kind self.now element }
    {
        if name_of(element).is_some() {
            return ElementKind::Plain(kind_of(element));
        }
        match self.find_entry(element) {
            Some(entry) => entry.kind,
            None => ElementKind::Plain(Kind::Octets),
        }
    }

    /// The name of an element, if it is known.
    pub fn name_of(&self, element: ElementId) -> Option<&str>
        ensures { option_map (λ name. name.now) result ≡ listed_name self.now element }
    {
        match name_of(element) {
            Some(name) => Some(name),
            None => Some(self.find_entry(element)?.name.as_str()),
        }
    }

    /// Writes an element's name, or `e<pen>.<number>` if it has none. An `Err` is the writer's.
    pub fn write_name<W: Write>(&self, element: ElementId, out: &mut W) -> io::Result<()>
        ensures { OnOk result (Writes W.contents out.old out.new (element_name self.now element)) }
    {
        if name_of(element).is_some() {
            return write_name(element, out);
        }
        match self.find_entry(element) {
            Some(entry) => out.write_all(entry.name.as_bytes()),
            None => write_name(element, out),
        }
    }

    /// The element that a text names: as [`by_name`] says, or by the name that a file says.
    pub fn by_name(&self, name: &str) -> Option<ElementId>
        ensures { result ≡ element_by_name self.now name.now }
    {
        match by_name(name) {
            Some(element) => Some(element),
            None => find_named(&self.entries, &self.places, name),
        }
    }
}
