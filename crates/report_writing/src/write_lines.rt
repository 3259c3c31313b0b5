//! What lines are told to.

ghost use Rattle.std.specs.Prelude.{◌≡◌, ◌↔◌, ⊤, true, IsTrue};

use std::fmt::Display;
use std::io::{self, Write};

/// What lines are told to: a writer, or one that remembers whether a write failed.
pub trait WriteLines {
    ghost use Rattle.std.specs.Prelude.{IfSome, OnErr, OnOk};
    ghost use Rattle.std.specs.Fmt.{with_newline};
    ghost use Rattle.report_writing.specs.Lines.{Adds, LinesView, StaysFailed};

    /// What is seen of it: the octets that it holds, and whether a write of it failed.
    ghost lines: { Self → LinesView };

    /// Writes a text.
    fn write_fmt<D: Display>(&mut self, text: D) -> io::Result<()>
    where
        Self: Sized,
        D: Drop,
        ensures bytes { OnOk result (IfSome (D.output text)
            (Adds lines self.old self.new)) }
        ensures failed { OnErr result (lines self.new).failed }
        ensures kept { StaysFailed lines self.old self.new };

    /// Writes a text and a newline.
    fn writeln<D: Display>(&mut self, text: D) -> io::Result<()>
    where
        Self: Sized,
        D: Drop,
        ensures bytes { OnOk result (IfSome (with_newline (D.output text))
            (Adds lines self.old self.new)) }
        ensures failed { OnErr result (lines self.new).failed }
        ensures kept { StaysFailed lines self.old self.new };

    /// Writes octets.
    fn write_all(&mut self, octets: &[u8]) -> io::Result<()>
        ensures bytes { OnOk result (Adds lines self.old self.new octets.now) }
        ensures failed { OnErr result (lines self.new).failed }
        ensures kept { StaysFailed lines self.old self.new };
}

/// A writer that says nothing of its failures.
impl<W: Write> WriteLines for W {
    ghost lines = { λ w. record { contents = W.contents w; failed = ⊤ } };

    fn write_fmt<D: Display>(&mut self, text: D) -> io::Result<()>
    where
        D: Drop,
    {
        Write::write_fmt(self, text)
    }

    fn writeln<D: Display>(&mut self, text: D) -> io::Result<()>
    where
        D: Drop,
    {
        Write::writeln(self, text)
    }

    fn write_all(&mut self, octets: &[u8]) -> io::Result<()> {
        Write::write_all(self, octets)
    }
}

/// A writer that remembers whether a write to it failed.
#[derive(Drop)]
pub struct CheckedWriter<W: Write + Drop> {
    out: W,
    failed: bool,
}

impl<W: Write + Drop> CheckedWriter<W> {
    /// Over a writer, to which no write failed yet.
    pub fn new(out: W) -> Self
        ensures holds { (⟦<CheckedWriter<W> as WriteLines>⟧.lines result).contents ≡ W.contents out }
        ensures not_failed { (⟦<CheckedWriter<W> as WriteLines>⟧.lines result).failed → ⊥ }
    {
        CheckedWriter { out, failed: false }
    }

    /// Whether a write failed.
    pub fn has_failed(&self) -> bool
        ensures { IsTrue result ↔ (⟦<CheckedWriter<W> as WriteLines>⟧.lines self.now).failed }
    {
        self.failed
    }

    /// The writer.
    pub fn into_inner(self) -> W
        ensures { W.contents result ≡ (⟦<CheckedWriter<W> as WriteLines>⟧.lines self).contents }
    {
        let CheckedWriter { out, .. } = self;
        out
    }
}

impl<W: Write + Drop> WriteLines for CheckedWriter<W> {
    ghost lines = { λ w. record { contents = W.contents w.out; failed = w.failed ≡ true } };

    fn write_fmt<D: Display>(&mut self, text: D) -> io::Result<()>
    where
        D: Drop,
    {
        let written = Write::write_fmt(&mut self.out, text);
        self.failed = self.failed || written.is_err();
        written
    }

    fn writeln<D: Display>(&mut self, text: D) -> io::Result<()>
    where
        D: Drop,
    {
        let written = Write::writeln(&mut self.out, text);
        self.failed = self.failed || written.is_err();
        written
    }

    fn write_all(&mut self, octets: &[u8]) -> io::Result<()> {
        let written = Write::write_all(&mut self.out, octets);
        self.failed = self.failed || written.is_err();
        written
    }
}
