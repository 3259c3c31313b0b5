//! Open files and folders of a disk in memory, as the system's.

use super::refusals::Need;
use super::script_tree::{Entry, Tree};
use std::cell::{RefCell, RefMut};
use std::fs::{Metadata, OpenFile};
use std::io::{self, ErrorKind, Read, Seek, SeekFrom, Write};

/// A file or a folder that is open.
#[derive(Drop)]
pub struct DiskFile<'a> {
    pub tree: &'a RefCell<Tree>,
    pub path: String,
    pub entry: Entry,
    pub read: usize,
}

/// The names in a folder when it was opened.
#[derive(Drop)]
pub struct DiskNames {
    pub names: Vec<u8>,
    pub read: usize,
}

/// The disk, if nobody else has it.
pub fn lent<'a>(tree: &'a RefCell<Tree>) -> io::Result<RefMut<'a, Tree>> {
    match tree.try_borrow_mut() {
        Ok(tree) => Ok(tree),
        Err(_) => Err(io::Error::from(ErrorKind::ResourceBusy)),
    }
}

// The octets from a place on.
fn rest_of(octets: &[u8], start: usize) -> &[u8] {
    if start <= octets.len() {
        &octets[start..]
    } else {
        &[]
    }
}

impl<'a> Read for DiskFile<'a> {
    fn read(&mut self, buf: &mut [u8]) -> io::Result<usize> {
        let mut tree = lent(self.tree)?;
        tree.call(Need::Nothing)?;
        let mut rest = rest_of(tree.octets_of(self.entry), self.read);
        let count = rest.read(buf)?;
        self.read = self.read.saturating_add(count);
        Ok(count)
    }
}

impl<'a> Write for DiskFile<'a> {
    // A write that is refused leaves the first half of its octets.
    fn write(&mut self, buf: &[u8]) -> io::Result<usize> {
        let mut tree = lent(self.tree)?;
        let called = tree.call(Need::Room);
        let count = if called.is_ok() {
            buf.len()
        } else {
            buf.len() / 2
        };
        tree.append(self.entry, &buf[..count])?;
        called?;
        Ok(count)
    }

    fn flush(&mut self) -> io::Result<()> {
        Ok(())
    }
}

impl<'a> Seek for DiskFile<'a> {
    fn seek(&mut self, _to: SeekFrom) -> io::Result<u64> {
        Err(io::Error::from(ErrorKind::Unsupported))
    }
}

impl<'a> OpenFile for DiskFile<'a> {
    fn metadata(&self) -> io::Result<Metadata> {
        let mut tree = lent(self.tree)?;
        tree.call(Need::Nothing)?;
        Ok(Metadata::of_file(tree.octets_of(self.entry).len() as u64))
    }

    fn set_len(&self, size: u64) -> io::Result<()> {
        let mut tree = lent(self.tree)?;
        tree.call(Need::Nothing)?;
        tree.cut(self.entry, size)
    }

    fn sync_all(&self) -> io::Result<()> {
        let mut tree = lent(self.tree)?;
        tree.call(Need::Nothing)?;
        match self.entry {
            Entry::Folder => tree.sync_folder(self.path.as_str()),
            Entry::File(number) => tree.sync_file(number),
        }
    }

    fn sync_data(&self) -> io::Result<()> {
        self.sync_all()
    }
}

impl Read for DiskNames {
    fn read(&mut self, buf: &mut [u8]) -> io::Result<usize> {
        let mut rest = rest_of(self.names.as_slice(), self.read);
        let count = rest.read(buf)?;
        self.read = self.read.saturating_add(count);
        Ok(count)
    }
}
