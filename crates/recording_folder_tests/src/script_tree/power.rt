//! What a power cut leaves of a disk in memory.

use super::{Name, Tree, is_in};
use std::alloc::AllocError;
use std::{io, mem};

/// How many names a path has at most.
const DEPTH: usize = 5;

/// Which names a power cut leaves: a disk may have done more than it was waited for.
#[derive(Clone, Copy, Debug, PartialEq, Eq)]
pub enum NamesLeft {
    /// Those that were brought to the disk.
    Synced,
    /// Those of them that were not taken away since.
    SyncedAndNotTaken,
    /// Those that are there.
    All,
}

impl NamesLeft {
    /// Each of them.
    pub const EACH: [NamesLeft; 3] = [
        NamesLeft::Synced,
        NamesLeft::SyncedAndNotTaken,
        NamesLeft::All,
    ];
}

impl Tree {
    /// Brings a file's octets to the disk.
    pub fn sync_file(&mut self, number: usize) -> io::Result<()> {
        if let Some(node) = self.nodes.get_mut(number) {
            node.synced = Vec::from_slice(self.alloc, node.octets.as_slice())?;
        }
        Ok(())
    }

    /// Brings the names in a folder to the disk.
    pub fn sync_folder(&mut self, folder: &str) -> io::Result<()> {
        self.synced
            .retain(|name| !is_in(name.path.as_str(), folder));
        for name in &self.names {
            if is_in(name.path.as_str(), folder) {
                let path = String::from_str(self.alloc, name.path.as_str())?;
                let entry = name.entry;
                self.synced.push(Name { path, entry })?;
            }
        }
        Ok(())
    }

    /// Brings all names and octets to the disk.
    pub fn sync(&mut self) -> io::Result<()> {
        self.synced = Vec::new(self.alloc);
        for name in &self.names {
            let path = String::from_str(self.alloc, name.path.as_str())?;
            let entry = name.entry;
            self.synced.push(Name { path, entry })?;
        }
        for number in 0..self.nodes.len() {
            self.sync_file(number)?;
        }
        Ok(())
    }

    /// Leaves the octets that were brought to the disk, and no others, and these names.
    pub fn cut_power(&mut self, left: NamesLeft) -> Result<(), AllocError> {
        for node in &mut self.nodes {
            node.octets = Vec::from_slice(self.alloc, node.synced.as_slice())?;
        }
        if left == NamesLeft::All {
            return Ok(());
        }
        let mut synced = mem::replace(&mut self.synced, Vec::new(self.alloc));
        if left == NamesLeft::SyncedAndNotTaken {
            synced.retain(|name| self.entry(name.path.as_str()) == Some(name.entry));
        }
        self.names = Vec::new(self.alloc);
        for _ in 0..DEPTH {
            self.add_each(&synced);
        }
        Ok(())
    }

    // Gives those names whose folders are there.
    fn add_each(&mut self, names: &[Name]) {
        for name in names {
            let _ = self.add(name.path.as_str(), name.entry);
        }
    }
}
