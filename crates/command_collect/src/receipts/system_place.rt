//! A file of the system that gets its name when it is whole.

ghost use Rattle.std.specs.Prelude.{⊤};

use crate::receipts::place::ReceiptPlace;
use report_writing::Reason;
use std::alloc::Global;
use std::fs::{self, File, Files, OpenFile, OpenOptions};
use std::io::{self, Write};
use table_receipts::read_receipt;

/// What is appended to the name of a receipt while it isn't whole.
const UNFINISHED: &str = ".unfinished";

/// The place of a receipt: a file that has another name, beside the receipt's, until it is whole.
#[derive(Drop)]
pub struct SystemPlace<'r> {
    rt: &'r HostRuntime,
    path: String,
    unfinished: String,
    file: File,
}

impl<'r> SystemPlace<'r> {
    /// Makes the file. What has the name of the receipt already must be a receipt, which is replaced when this one is
    /// whole.
    pub fn make(rt: &'r HostRuntime, alloc: Global, path: &str) -> Result<Self, Reason> {
        check_replaced(rt, alloc, path)?;
        let Ok(unfinished) = format!(in alloc; "{path}{UNFINISHED}") else {
            return Err(Reason::OutOfMemory);
        };
        let Ok(name) = String::from_str(alloc, path) else {
            return Err(Reason::OutOfMemory);
        };
        let mut options = OpenOptions::new();
        options.write(true).create(true).truncate(true);
        match options.open(rt, unfinished.as_str()) {
            Ok(file) => Ok(SystemPlace {
                rt,
                path: name,
                unfinished,
                file,
            }),
            Err(error) => Err(Reason::of(&error)),
        }
    }

    /// Removes the file, if it has not become the receipt.
    pub fn discard(self) {
        let _ = fs::remove_file(self.rt, self.unfinished.as_str());
    }
}

impl<'r> ReceiptPlace for SystemPlace<'r> {
    ghost holds = { λ _ _. ⊤ };

    fn put(&mut self, text: &[u8]) -> io::Result<()> {
        self.file.write_all(text)?;
        self.file.sync_all()?;
        fs::rename(self.rt, self.unfinished.as_str(), self.path.as_str())
    }
}

// Whether a path may become that of a receipt: nothing has it, or a receipt.
fn check_replaced(rt: &HostRuntime, alloc: Global, path: &str) -> Result<(), Reason> {
    match fs::metadata(rt, path) {
        Ok(metadata) if metadata.is_file() => {}
        Ok(_) => return Err(Reason::NotValid),
        Err(error) => {
            return match Reason::of(&error) {
                Reason::NoSuchFile => Ok(()),
                reason => Err(reason),
            };
        }
    }
    let text = match fs::read_to_string(rt, path) {
        Ok(text) => text,
        Err(error) => return Err(Reason::of(&error)),
    };
    match read_receipt(alloc, text.as_str()) {
        Ok(_) => Ok(()),
        Err(_) => Err(Reason::NotValid),
    }
}
