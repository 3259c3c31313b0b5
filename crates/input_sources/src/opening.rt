//! What opens sources.

ghost use Rattle.std.specs.Prelude.{◌≡◌, ◌≢◌, ⊤, None, codes};

use ipfix_session::{FromReader, Source};
use report_writing::Reason;
use std::fs::{self, OpenFile};
use std::io::Read;
use std::num::NonZeroU64;
use std::rt::Files;

/// The word for standard input, and the file that it is.
const STANDARD_INPUT: (&str, &str) = ("-", "/dev/stdin");

/// A source that was opened.
#[derive(Drop)]
pub struct Opened<S> {
    pub source: S,
    /// How many octets it has, if that is known before it is read.
    pub size: Option<NonZeroU64>,
}

/// Opens sources by their paths.
pub trait OpenSource<S: Source> {
    ghost use Rattle.std.specs.Prelude.{◌≡◌, ℕ, List, Option, IfErr, IfOk, OnErr, option_map};
    ghost use Rattle.std.specs.Int.NonZero.{non_zero_u64_get};
    ghost use Rattle.input_sources.specs.Had.{ComesNext, HoldBefore, IsUnread};
    ghost use Rattle.report_writing.specs.declared.reason.Reason.{Reason};

    /// Whether a source is the one that a path opens, as it is before it is read.
    ghost opens: { Self → List ℕ → S → Type 0 };

    /// Whether what a path opens has so many octets, or it is not known how many.
    ghost sizes: { Self → List ℕ → Option ℕ → Type 0 };

    /// Whether a path can't be opened for this reason.
    ghost refuses: { Self → List ℕ → Reason → Type 0 };

    /// The sources that are still to come, in their order, if it shows them.
    ghost coming: { Self → Option (List S) };

    /// The source of a path, of which nothing was read; or why it can't be opened.
    fn open_source(&mut self, path: &str) -> Result<Opened<S>, Reason>
        ensures named { IfOk result (λ opened. opens self.old path.now opened.source) }
        ensures sized { IfOk result
            (λ it. sizes self.old path.now (option_map non_zero_u64_get it.size)) }
        ensures refused { IfErr result (refuses self.old path.now) }
        ensures unread { IfOk result (λ opened. IsUnread S.seen opened.source) }
        // It is the next one that was to come.
        ensures came { IfOk result
            (λ opened. ComesNext (coming self.old) (coming self.new) opened.source) }
        ensures none_came { OnErr result (coming self.new ≡ coming self.old) }
        // No path has another source than before.
        ensures same { HoldBefore (opens self.old) (opens self.new) }
        // Nor another size, nor is it refused for another reason.
        ensures same_size { HoldBefore (sizes self.old) (sizes self.new) }
        ensures same_reason { HoldBefore (refuses self.old) (refuses self.new) };
}

/// The files of the system. The path `-` is standard input.
#[derive(Drop)]
pub struct SystemFiles<'r, R> {
    rt: &'r R,
}

impl<'r, R> SystemFiles<'r, R> {
    /// None of them is opened yet.
    pub fn new(rt: &'r R) -> Self {
        SystemFiles { rt }
    }
}

impl<'r, F: Read + OpenFile + Drop, R: Files<File = F>> OpenSource<FromReader<F>>
    for SystemFiles<'r, R> {
    ghost opens = { λ _ _ _. ⊤ };

    ghost sizes = { λ _ _ _. ⊤ };

    ghost refuses = { λ _ _ _. ⊤ };

    ghost coming = { λ _. None };

    fn open_source(&mut self, path: &str) -> Result<Opened<FromReader<F>>, Reason> {
        let file = match fs::open(self.rt, name_of_file(path)) {
            Ok(file) => file,
            Err(error) => return Err(Reason::of(&error)),
        };
        let size = size_of(&file);
        Ok(Opened {
            source: FromReader::new(file),
            size,
        })
    }
}

/// The name that the system has for the file of a path.
pub fn name_of_file(path: &str) -> &str
    ensures standard_input { path.now ≡ codes "-" → result.now ≡ codes "/dev/stdin" }
    ensures other { path.now ≢ codes "-" → result.now ≡ path.now }
{
    if path == STANDARD_INPUT.0 {
        STANDARD_INPUT.1
    } else {
        path
    }
}

/// How many octets a file has, if that can be known before it is read: a folder has a size, and no octets.
pub fn size_of<F: OpenFile>(file: &F) -> Option<NonZeroU64> {
    let metadata = file.metadata().ok()?;
    if metadata.is_file() {
        NonZeroU64::new(metadata.len())
    } else {
        None
    }
}
