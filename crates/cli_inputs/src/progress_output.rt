//! Where progress is told.

ghost use Rattle.std.specs.Io.{WritesAtMost};

use std::fs::{File, OpenOptions};
use std::io::{self, Stderr, Write};
use std::rt::Files;

/// The terminal that the program was started from.
const TERMINAL: &str = "/dev/tty";

/// Opens that terminal, if there is one.
pub fn open_terminal<R: Files<File = File>>(rt: &R) -> Option<File> {
    OpenOptions::new().write(true).open(rt, TERMINAL).ok()
}

/// Where progress is told. Nothing is kept back, so sessions may share it.
#[derive(Clone, Copy)]
pub enum ProgressOutput<'a> {
    Terminal(&'a File),
    StandardError(Stderr),
}

impl<'a> Write for ProgressOutput<'a> {
    fn write(&mut self, octets: &[u8]) -> io::Result<usize> {
        match *self {
            ProgressOutput::Terminal(file) => write_to_file(file, octets),
            ProgressOutput::StandardError(err) => write_to_error(err, octets),
        }
    }

    fn flush(&mut self) -> io::Result<()> {
        Ok(())
    }
}

fn write_to_file(file: &File, octets: &[u8]) -> io::Result<usize>
    ensures { WritesAtMost result octets.now }
{
    let mut file = file;
    file.write(octets)
}

fn write_to_error(err: Stderr, octets: &[u8]) -> io::Result<usize>
    ensures { WritesAtMost result octets.now }
{
    let mut err = err;
    err.write(octets)
}
