//! Files of which each is open only while it is read.

ghost use Rattle.std.specs.Prelude.{⊤, None};

use crate::opening::{OpenSource, Opened, name_of_file, size_of};
use ipfix_session::FromReader;
use report_writing::Reason;
use std::alloc::Global;
use std::fs::{self, File, OpenFile};
use std::io::{self, ErrorKind, Read};

/// The files of the system, of which any number can be had: each is opened, so that it is known that it can be, and
/// closed; it is opened again at its first read, and closed at its end or when a read fails. One that is no regular file,
/// as a pipe or a terminal, stays open from the first. The path `-` is standard input.
#[derive(Drop)]
pub struct FilesInTurn<'r> {
    rt: &'r HostRuntime,
    alloc: Global,
}

impl<'r> FilesInTurn<'r> {
    /// None of them is opened yet.
    pub fn new(rt: &'r HostRuntime, alloc: Global) -> Self {
        FilesInTurn { rt, alloc }
    }
}

impl<'r> OpenSource<FromReader<FileInTurn<'r>>> for FilesInTurn<'r> {
    ghost opens = { λ _ _ _. ⊤ };

    ghost sizes = { λ _ _ _. ⊤ };

    ghost refuses = { λ _ _ _. ⊤ };

    ghost coming = { λ _. None };

    fn open_source(&mut self, path: &str) -> Result<Opened<FromReader<FileInTurn<'r>>>, Reason> {
        let Ok(name) = String::from_str(self.alloc, name_of_file(path)) else {
            return Err(Reason::OutOfMemory);
        };
        let file = match fs::open(self.rt, name.as_str()) {
            Ok(file) => file,
            Err(error) => return Err(Reason::of(&error)),
        };
        let size = size_of(&file);
        let file = FileInTurn {
            rt: self.rt,
            name,
            turn: Turn::of(file),
        };
        Ok(Opened {
            source: FromReader::new(file),
            size,
        })
    }
}

/// A file that is open only while it is read.
#[derive(Drop)]
pub struct FileInTurn<'r> {
    rt: &'r HostRuntime,
    name: String,
    turn: Turn,
}

// Whether it is a file's turn.
#[derive(Drop)]
enum Turn {
    Coming,
    Open(File),
    Over,
}

impl Turn {
    // Of a file that was opened. A regular file is closed.
    fn of(file: File) -> Self {
        match file.metadata() {
            Ok(metadata) if metadata.is_file() => Turn::Coming,
            _ => Turn::Open(file),
        }
    }
}

impl<'r> Read for FileInTurn<'r> {
    fn read(&mut self, buffer: &mut [u8]) -> io::Result<usize> {
        if let Turn::Coming = self.turn {
            self.turn = Turn::Open(fs::open(self.rt, self.name.as_str())?);
        }
        let Turn::Open(file) = &mut self.turn else {
            return Ok(0);
        };
        let answer = file.read(buffer);
        if is_over(&answer) {
            self.turn = Turn::Over;
        }
        answer
    }
}

// Whether nothing comes after this answer. After an interruption a read is tried again.
fn is_over(answer: &io::Result<usize>) -> bool {
    match answer {
        Ok(count) => *count == 0,
        Err(error) => error.kind() != ErrorKind::Interrupted,
    }
}
