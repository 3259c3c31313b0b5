//! A folder of recordings on a disk in memory, and what is said of its files.

use super::kept_files::KeptFiles;
use super::refusals::Refusal;
use super::script_disk::Disk;
use super::script_file::lent;
use super::script_tree::{Entry, NamesLeft, Tree};
use super::standing::{Notes, check, check_finals, check_named, check_said, check_settled};
use recording_folder::{EarlierPeers, Folder, recover};
use std::alloc::Global;
use std::cell::RefCell;
use std::io;
use std::test::Fail;

/// A second of the period of 300 seconds that begins at 2026-11-25 13:35:00.
pub const FIRST_PERIOD: u64 = 1_795_613_836;

/// The first second of the next one.
pub const NEXT_PERIOD: u64 = 1_795_614_000;

/// More calls than anything here makes.
pub const MANY_CALLS: u64 = 1000;

/// A folder of recordings on a disk in memory, and what was said of its files, a line each.
#[derive(Drop)]
pub struct Trial<'a> {
    pub system: &'a HostRuntime,
    pub alloc: Global,
    pub folder: &'a Folder,
    pub tree: RefCell<Tree>,
    pub lines: RefCell<Vec<String>>,
}

impl<'a> Trial<'a> {
    /// An empty folder, in the first period.
    pub fn new(system: &'a HostRuntime, folder: &'a Folder) -> io::Result<Self> {
        let alloc: Global = system.alloc();
        let mut tree = Tree::new(alloc);
        tree.add(folder.path(), Entry::Folder)?;
        tree.add(folder.unfinished(), Entry::Folder)?;
        tree.sync()?;
        tree.second = FIRST_PERIOD;
        Ok(Trial {
            system,
            alloc,
            folder,
            tree: RefCell::new(tree),
            lines: RefCell::new(Vec::new(alloc)),
        })
    }

    /// The disk.
    pub fn disk(&self) -> Disk<'_> {
        Disk {
            tree: &self.tree,
            alloc: self.alloc,
            system: self.system,
        }
    }

    /// Who notes what is said.
    pub fn notes(&self) -> Notes<'_> {
        Notes {
            lines: &self.lines,
            alloc: self.alloc,
        }
    }

    /// The path of a name in the folder.
    pub fn path(&self, name: &str) -> io::Result<String> {
        let folder = self.folder.path();
        Ok(format!(in self.alloc; "{folder}/{name}")?)
    }

    /// What the disk refuses from now on. Its calls are counted again.
    pub fn refuse(&self, refusal: Option<Refusal>) -> io::Result<()> {
        let mut tree = lent(&self.tree)?;
        tree.calls = 0;
        tree.refusal = refusal;
        Ok(())
    }

    /// Whether there were more calls than so many.
    pub fn has_called(&self, calls: u64) -> io::Result<bool> {
        Ok(lent(&self.tree)?.calls > calls)
    }

    /// Finishes what is left, with nothing refused, and answers how many files stay.
    pub fn recover(&self) -> io::Result<u64> {
        self.refuse(None)?;
        let mut earlier = EarlierPeers::new(self.alloc);
        recover(&self.disk(), self.folder, &mut self.notes(), &mut earlier)
    }

    /// These files stand whole under one of their names, or under two of one file; no final name has anything
    /// else; and what was said to be finished is.
    pub fn check(&self, kept: &KeptFiles, case: &str) -> Result<(), Fail> {
        let tree = lent(&self.tree)?;
        let lines = self.lines.try_borrow()?;
        check_named(&tree, &kept.files, case)?;
        check_finals(&tree, &kept.files, &lines, case)?;
        check_said(&tree, &kept.files, &lines, case)
    }

    /// These files have their final names, and nothing else is among the unfinished ones but those names, each
    /// of which is ended by a NUL.
    pub fn check_settled(&self, kept: &KeptFiles, rest: &[u8], case: &str) -> Result<(), Fail> {
        self.check(kept, case)?;
        let tree = lent(&self.tree)?;
        check_settled(&tree, &kept.files, case)?;
        let left = tree.names_in(self.folder.unfinished())?;
        check(
            left.as_slice() == rest,
            case,
            "another file is left unfinished",
        )
    }

    /// A file that has this path in the folder has these octets.
    pub fn check_file(&self, name: &str, octets: &[u8]) -> Result<(), Fail> {
        let path = self.path(name)?;
        let tree = lent(&self.tree)?;
        check(tree.octets(path.as_str()) == Some(octets), "a file", name)
    }

    /// This was said, a line each, with the folder's path before each name.
    pub fn check_lines(&self, wanted: &[(&str, &str)]) -> Result<(), Fail> {
        let lines = self.lines.try_borrow()?;
        check(lines.len() == wanted.len(), "lines", "their number")?;
        for (line, (said, name)) in lines.iter().zip(wanted) {
            let path = self.path(name)?;
            let is_right = line.as_str().strip_prefix(*said) == Some(path.as_str());
            check(is_right, "lines", line.as_str())?;
        }
        Ok(())
    }

    /// The files that were said to be finished.
    pub fn said_files(&self) -> io::Result<KeptFiles> {
        let mut said = KeptFiles::new(self.alloc);
        let tree = lent(&self.tree)?;
        if let Ok(lines) = self.lines.try_borrow() {
            for line in &*lines {
                if let Some(path) = line.as_str().strip_prefix("finished ")
                    && let Some(octets) = tree.octets(path)
                {
                    said.keep_file(octets)?;
                }
            }
        }
        Ok(said)
    }

    /// Cuts the power: of the kept files these stand whole, and have their final names after the next start. None
    /// stands in parts under a final name.
    pub fn check_power_cut(
        &self,
        outlive: &KeptFiles,
        kept: &KeptFiles,
        left: NamesLeft,
        case: &str,
    ) -> Result<(), Fail> {
        lent(&self.tree)?.cut_power(left)?;
        {
            let tree = lent(&self.tree)?;
            let lines = self.lines.try_borrow()?;
            check_named(&tree, &outlive.files, case)?;
            check_finals(&tree, &kept.files, &lines, case)?;
            check_said(&tree, &kept.files, &lines, case)?;
        }
        self.recover()?;
        let tree = lent(&self.tree)?;
        check_settled(&tree, &outlive.files, case)
    }
}

/// Cuts the power at each call in turn, until a run comes to its end, whatever names are left. `cut_at` makes a run whose
/// power is cut at a call, and answers whether it came to that call.
pub fn cut_at_each_call<F: Fn(u64, NamesLeft) -> Result<bool, Fail>>(cut_at: F) -> Result<(), Fail>
    requires { F.IsAlwaysCallable cut_at }
{
    for left in NamesLeft::EACH {
        cut_until_the_end(&cut_at, left)?;
    }
    Ok(())
}

// The same where these names are left.
fn cut_until_the_end<F: Fn(u64, NamesLeft) -> Result<bool, Fail>>(
    cut_at: &F,
    left: NamesLeft,
) -> Result<(), Fail>
    requires { F.IsAlwaysCallable cut_at.now }
{
    for first in 0..MANY_CALLS {
        if !cut_at(first, left)? {
            return Ok(());
        }
    }
    Err(Fail::new("no run came to its end"))
}
