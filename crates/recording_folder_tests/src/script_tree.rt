//! Folders, files and hard links in memory, and which of the calls on them are refused.

use super::refusals::{Need, Refusal};
use std::alloc::Global;
use std::io::{self, ErrorKind};

mod power;

pub use power::NamesLeft;

/// What a path names.
#[derive(Clone, Copy, Debug, PartialEq, Eq)]
pub enum Entry {
    Folder,
    /// The file with this number.
    File(usize),
}

/// A path, and what it names.
#[derive(Drop)]
pub struct Name {
    pub path: String,
    pub entry: Entry,
}

/// A file, under however many names.
#[derive(Drop)]
pub struct Node {
    pub octets: Vec<u8>,
    /// What a power cut leaves of it.
    synced: Vec<u8>,
    pub is_readable: bool,
}

/// A disk: the names on it and its files.
#[derive(Drop)]
pub struct Tree {
    pub names: Vec<Name>,
    pub nodes: Vec<Node>,
    /// What a power cut leaves of the names.
    synced: Vec<Name>,
    pub has_links: bool,
    /// The time since 1970.
    pub second: u64,
    pub refusal: Option<Refusal>,
    /// How many calls came.
    pub calls: u64,
    alloc: Global,
}

impl Tree {
    /// An empty disk, which refuses nothing.
    pub fn new(alloc: Global) -> Self {
        Tree {
            names: Vec::new(alloc),
            nodes: Vec::new(alloc),
            synced: Vec::new(alloc),
            has_links: true,
            second: 0,
            refusal: None,
            calls: 0,
            alloc,
        }
    }

    /// Counts a call, and refuses it if it is to be.
    pub fn call(&mut self, need: Need) -> io::Result<()> {
        let number = self.calls;
        self.calls = self.calls.saturating_add(1);
        let Some(refusal) = self.refusal else {
            return Ok(());
        };
        if refusal.refuses(number, need) {
            return Err(io::Error::from_raw_os_error(refusal.code));
        }
        Ok(())
    }

    /// What a path names.
    pub fn entry(&self, path: &str) -> Option<Entry> {
        for name in &self.names {
            if name.path.as_str() == path {
                return Some(name.entry);
            }
        }
        None
    }

    /// The octets of the file under a path.
    pub fn octets(&self, path: &str) -> Option<&[u8]> {
        let Some(Entry::File(number)) = self.entry(path) else {
            return None;
        };
        let node = self.nodes.get(number)?;
        Some(node.octets.as_slice())
    }

    /// The octets of a file; of a folder none.
    pub fn octets_of(&self, entry: Entry) -> &[u8] {
        let Entry::File(number) = entry else {
            return &[];
        };
        match self.nodes.get(number) {
            Some(node) => node.octets.as_slice(),
            None => &[],
        }
    }

    /// Whether it can be opened.
    pub fn can_open(&self, entry: Entry) -> bool {
        match entry {
            Entry::Folder => true,
            Entry::File(number) => match self.nodes.get(number) {
                Some(node) => node.is_readable,
                None => false,
            },
        }
    }

    /// Appends octets to a file.
    pub fn append(&mut self, entry: Entry, octets: &[u8]) -> io::Result<()> {
        if let Entry::File(number) = entry
            && let Some(node) = self.nodes.get_mut(number)
        {
            node.octets.extend_from_slice(octets)?;
        }
        Ok(())
    }

    /// Leaves so many octets of a file.
    pub fn cut(&mut self, entry: Entry, length: u64) -> io::Result<()> {
        if let Entry::File(number) = entry
            && let Some(node) = self.nodes.get_mut(number)
        {
            node.octets.truncate(length as usize);
        }
        Ok(())
    }

    /// The names in a folder, each ended by a NUL.
    pub fn names_in(&self, folder: &str) -> io::Result<Vec<u8>> {
        let mut names = Vec::new(self.alloc);
        for name in &self.names {
            if let Some((parent, last)) = name.path.as_str().rsplit_once('/')
                && parent == folder
            {
                names.extend_from_slice(last.as_bytes())?;
                names.push(0)?;
            }
        }
        Ok(names)
    }

    /// Gives a name that is free, in a folder that is there.
    pub fn add(&mut self, path: &str, entry: Entry) -> io::Result<()> {
        if self.entry(path).is_some() {
            return Err(io::Error::from(ErrorKind::AlreadyExists));
        }
        if let Some((parent, _)) = path.rsplit_once('/') {
            if self.entry(parent) != Some(Entry::Folder) {
                return Err(io::Error::from(ErrorKind::NotFound));
            }
        }
        let path = String::from_str(self.alloc, path)?;
        self.names.push(Name { path, entry })?;
        Ok(())
    }

    /// Makes a file under a name that is free, and answers its number.
    pub fn make_file(&mut self, path: &str, octets: &[u8]) -> io::Result<usize> {
        let number = self.nodes.len();
        let node = Node {
            octets: Vec::from_slice(self.alloc, octets)?,
            synced: Vec::new(self.alloc),
            is_readable: true,
        };
        self.add(path, Entry::File(number))?;
        self.nodes.push(node)?;
        Ok(number)
    }

    /// Takes a name away, and answers what it named.
    pub fn remove(&mut self, path: &str) -> io::Result<Entry> {
        let Some(entry) = self.entry(path) else {
            return Err(io::Error::from(ErrorKind::NotFound));
        };
        self.names.retain(|name| name.path.as_str() != path);
        Ok(entry)
    }

    /// Takes a folder away with all that is in it.
    pub fn remove_all(&mut self, folder: &str) {
        self.names.retain(|name| name.path.as_str() != folder
            && !is_below(name.path.as_str(), folder));
    }
}

/// Whether a path is one of a name in a folder.
pub fn is_in(path: &str, folder: &str) -> bool {
    match path.rsplit_once('/') {
        Some((parent, _)) => parent == folder,
        None => folder.is_empty(),
    }
}

/// Whether a path leads through a folder.
pub fn is_below(path: &str, folder: &str) -> bool {
    match path.strip_prefix(folder) {
        Some(rest) => rest.starts_with('/'),
        None => false,
    }
}
