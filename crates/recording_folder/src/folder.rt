//! The folder of a run, and the lock on it.

ghost use Rattle.std.specs.Prelude.{◌≡◌, IfOk, codes};
ghost use Rattle.std.specs.String.{string_bytes};
ghost use Rattle.recording_folder.specs.Paths.{in_folder};
ghost use Rattle.recording_folder.specs.FolderFaults.{fault_of_lock};
ghost use Rattle.recording_folder.specs.Folders.{IsFolderAt};

use std::alloc::Global;
use std::fs::{self, File, Files, OpenOptions, TryLockError};
use std::io::{self, ErrorKind};
use thiserror::Error;

/// The folder of what isn't finished.
const UNFINISHED: &str = "unfinished";

/// The file on which a run holds a lock. Names that begin with a dot are left out by `FOLDER/*`.
const LOCK: &str = ".lock";

/// Why a folder could not be opened.
#[derive(Debug, Drop, Error)]
pub enum FolderFault {
    /// Another run has it open.
    #[error("another run records into this folder")]
    InUse,
    /// It could not be made, or not be locked.
    #[error("{0}")]
    NotHad(io::Error),
}

/// The reason is that error.
impl From<io::Error> for FolderFault {
    ghost use Rattle.std.specs.Prelude.{◌≡◌};
    ghost use Rattle.recording_folder.specs.declared.folder.FolderFault.TheVariants.{NotHad};

    ghost from_gives = { λ error fault. fault ≡ NotHad error };

    fn from(error: io::Error) -> Self {
        Self::NotHad(error)
    }
}

/// A folder of recordings. No other run has it open while this value lives; the system ends that when the
/// process ends, however it ends.
#[derive(Drop)]
pub struct Folder {
    path: String,
    unfinished: String,
    _lock: File,
}

impl Folder {
    /// The path that it was opened by.
    pub fn path(&self) -> &str
        ensures { result.now ≡ string_bytes self.now.path }
    {
        self.path.as_str()
    }

    /// The path of the folder of what isn't finished.
    pub fn unfinished(&self) -> &str
        ensures { result.now ≡ string_bytes self.now.unfinished }
    {
        self.unfinished.as_str()
    }
}

/// Opens a folder of recordings. It is made where it isn't there, and locked.
pub fn open_folder<R: Files<File = File>>(
    rt: &R,
    alloc: Global,
    path: &str,
) -> Result<Folder, FolderFault>
    ensures { IfOk result (IsFolderAt path.now) }
{
    let unfinished = unfinished_in(alloc, path)?;
    fs::create_dir_all(rt, unfinished.as_str())?;
    lock_folder(rt, alloc, path, unfinished)
}

/// Opens a folder of recordings that an earlier run made, and locks it. Nothing is made but the file of the lock: without
/// a folder of what isn't finished it is no folder of recordings, which is an `Err`.
pub fn reopen_folder<R: Files<File = File>>(
    rt: &R,
    alloc: Global,
    path: &str,
) -> Result<Folder, FolderFault>
    ensures { IfOk result (IsFolderAt path.now) }
{
    let unfinished = unfinished_in(alloc, path)?;
    if !fs::metadata(rt, unfinished.as_str())?.is_dir() {
        return Err(FolderFault::NotHad(io::Error::from(ErrorKind::NotADirectory)));
    }
    lock_folder(rt, alloc, path, unfinished)
}

// The path of the folder of what isn't finished.
fn unfinished_in(alloc: Global, path: &str) -> io::Result<String>
    ensures { IfOk result (λ folder. string_bytes folder ≡ in_folder path.now (codes "unfinished")) }
{
    if path.is_empty() {
        return Err(io::Error::from(ErrorKind::NotFound));
    }
    path_in(alloc, path, UNFINISHED)
}

// Locks a folder that is there.
fn lock_folder<R: Files<File = File>>(
    rt: &R,
    alloc: Global,
    path: &str,
    unfinished: String,
) -> Result<Folder, FolderFault>
    requires { string_bytes unfinished ≡ in_folder path.now (codes "unfinished") }
    ensures { IfOk result (IsFolderAt path.now) }
{
    let lock = path_in(alloc, path, LOCK)?;
    let lock = OpenOptions::new()
        .append(true)
        .create(true)
        .open(rt, lock.as_str())?;
    match lock.try_lock() {
        Ok(()) => Ok(Folder {
            path: path_in_place(alloc, path)?,
            unfinished,
            _lock: lock,
        }),
        Err(error) => Err(lock_fault(error)),
    }
}

// Why a folder that is there could not be locked.
fn lock_fault(error: TryLockError) -> FolderFault
    ensures { result ≡ fault_of_lock error }
{
    match error {
        TryLockError::WouldBlock => FolderFault::InUse,
        TryLockError::Error(error) => FolderFault::NotHad(error),
    }
}

// The path itself.
fn path_in_place(alloc: Global, path: &str) -> io::Result<String>
    ensures { IfOk result (λ text. string_bytes text ≡ path.now) }
{
    Ok(String::from_str(alloc, path)?)
}

/// The path of a name in a folder.
pub(crate) fn path_in(alloc: Global, folder: &str, name: &str) -> io::Result<String>
    ensures { IfOk result (λ path. string_bytes path ≡ in_folder folder.now name.now) }
{
    Ok(format!(in alloc; "{folder}/{name}")?)
}
