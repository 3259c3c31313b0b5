//! Errors that pass once files are closed.

ghost use Rattle.std.specs.Prelude.{◌⊎◌, ◌↔◌, IsTrue};
ghost use Rattle.recording_folder.specs.Codes.{HasCode};

use std::io;

/// `EMFILE`: the program has as many descriptors as it may have.
const PROGRAM_HAS_ALL: i32 = 24;

/// `ENFILE`: the system has.
const SYSTEM_HAS_ALL: i32 = 23;

/// Whether a call failed since no descriptor is free.
pub(crate) fn lacks_descriptors(error: &io::Error) -> bool
    ensures { IsTrue result
        ↔ (HasCode PROGRAM_HAS_ALL error.now ⊎ HasCode SYSTEM_HAS_ALL error.now) }
{
    match error.raw_os_error() {
        Some(code) => code == PROGRAM_HAS_ALL || code == SYSTEM_HAS_ALL,
        None => false,
    }
}
