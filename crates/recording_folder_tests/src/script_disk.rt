//! A disk in memory, as the system's files. These are tests: std's traits of files have no ghost member, so no
//! theorem says what stands on a disk.

use super::refusals::Need;
use super::script_file::{DiskFile, DiskNames, lent};
use super::script_tree::{Entry, Tree};
use std::alloc::{Allocator, Global};
use std::cell::RefCell;
use std::fs::{self, Files, Metadata, OpenOptions};
use std::io::{self, ErrorKind};
use std::rt::Clock;
use std::time::Duration;

/// A disk in memory, and its clock.
#[derive(Clone, Copy)]
pub struct Disk<'a> {
    pub tree: &'a RefCell<Tree>,
    pub alloc: Global,
    pub system: &'a HostRuntime,
}

impl<'a> Disk<'a> {
    // What tells files apart. std makes no `Metadata` that has it: that of an empty file of the system, of which
    // each file of the disk has one, gives it.
    fn metadata_of(&self, entry: Entry) -> io::Result<Metadata> {
        match entry {
            Entry::Folder => Ok(Metadata::of_dir()),
            Entry::File(number) => {
                let path = format!(in self.alloc; "nodes/{number}")?;
                if !fs::exists(self.system, path.as_str())? {
                    fs::create_dir_all(self.system, "nodes")?;
                    fs::write(self.system, path.as_str(), b"")?;
                }
                fs::symlink_metadata(self.system, path.as_str())
            }
        }
    }
}

impl<'a> Alloc for Disk<'a> {
    type A = Global;

    fn alloc(&self) -> Global {
        self.alloc
    }
}

impl<'a> Clock for Disk<'a> {
    fn monotonic(&self) -> io::Result<Duration> {
        self.since_1970()
    }

    fn since_1970(&self) -> io::Result<Duration> {
        Ok(Duration::from_secs(lent(self.tree)?.second))
    }
}

impl<'a> Files for Disk<'a> {
    type File = DiskFile<'a>;

    type Dir = DiskNames;

    fn open_file(&self, how: &OpenOptions, path: &str) -> io::Result<DiskFile<'a>> {
        how.check()?;
        let mut tree = lent(self.tree)?;
        let makes = how.asks_create_new() || how.asks_create();
        tree.call(if makes {
            Need::DescriptorAndRoom
        } else {
            Need::Descriptor
        })?;
        let entry = match tree.entry(path) {
            Some(_) if how.asks_create_new() => {
                return Err(io::Error::from(ErrorKind::AlreadyExists));
            }
            Some(entry) => entry,
            None if makes => Entry::File(tree.make_file(path, b"")?),
            None => return Err(io::Error::from(ErrorKind::NotFound)),
        };
        if !tree.can_open(entry) {
            return Err(io::Error::from(ErrorKind::PermissionDenied));
        }
        Ok(DiskFile {
            tree: self.tree,
            path: String::from_str(self.alloc, path)?,
            entry,
            read: 0,
        })
    }

    fn open_dir(&self, path: &str) -> io::Result<DiskNames> {
        let mut tree = lent(self.tree)?;
        tree.call(Need::Descriptor)?;
        let folder = path.strip_suffix('/').unwrap_or(path);
        if tree.entry(folder) != Some(Entry::Folder) {
            return Err(io::Error::from(ErrorKind::NotFound));
        }
        Ok(DiskNames {
            names: tree.names_in(folder)?,
            read: 0,
        })
    }

    fn metadata(&self, path: &str) -> io::Result<Metadata> {
        self.symlink_metadata(path)
    }

    fn symlink_metadata(&self, path: &str) -> io::Result<Metadata> {
        let mut tree = lent(self.tree)?;
        tree.call(Need::Nothing)?;
        match tree.entry(path) {
            Some(entry) => self.metadata_of(entry),
            None => Err(io::Error::from(ErrorKind::NotFound)),
        }
    }

    fn copy(&self, _from: &str, _to: &str) -> io::Result<u64> {
        Err(io::Error::from(ErrorKind::Unsupported))
    }

    fn rename(&self, from: &str, to: &str) -> io::Result<()> {
        let mut tree = lent(self.tree)?;
        tree.call(Need::Room)?;
        let entry = tree.remove(from)?;
        let _ = tree.remove(to);
        tree.add(to, entry)
    }

    fn remove_file(&self, path: &str) -> io::Result<()> {
        let mut tree = lent(self.tree)?;
        tree.call(Need::Nothing)?;
        tree.remove(path)?;
        Ok(())
    }

    fn create_dir(&self, path: &str) -> io::Result<()> {
        let mut tree = lent(self.tree)?;
        tree.call(Need::Room)?;
        tree.add(path, Entry::Folder)
    }

    fn remove_dir(&self, _path: &str) -> io::Result<()> {
        Err(io::Error::from(ErrorKind::Unsupported))
    }

    fn remove_dir_all<B: Allocator>(&self, _alloc: B, _path: &str) -> io::Result<()> {
        Err(io::Error::from(ErrorKind::Unsupported))
    }

    fn hard_link(&self, original: &str, link: &str) -> io::Result<()> {
        let mut tree = lent(self.tree)?;
        tree.call(Need::Room)?;
        match tree.entry(original) {
            Some(entry) if tree.has_links => tree.add(link, entry),
            Some(_) => Err(io::Error::from(ErrorKind::PermissionDenied)),
            None => Err(io::Error::from(ErrorKind::NotFound)),
        }
    }
}
