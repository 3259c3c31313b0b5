//! What stands on a disk in memory, beside what was acknowledged.

use super::script_tree::{Entry, Name, Tree};
use recording_files::{FileReport, FinishedFiles, Recovered};
use std::alloc::{AllocError, Global};
use std::cell::RefCell;
use std::io;
use std::test::Fail;

/// Notes what is said of files, a line each: of one that was recovered how it ends, its messages, their records, and how
/// many were lost.
#[derive(Clone, Copy)]
pub struct Notes<'a> {
    pub lines: &'a RefCell<Vec<String>>,
    pub alloc: Global,
}

impl<'a> Notes<'a> {
    // Notes a line, if there is memory for it.
    fn note(&mut self, line: Result<String, AllocError>) {
        if let Ok(line) = line
            && let Ok(mut lines) = self.lines.try_borrow_mut()
        {
            let _ = lines.push(line);
        }
    }
}

impl<'a> FinishedFiles for Notes<'a> {
    ghost use Rattle.std.specs.Prelude.{⊤};

    ghost tells = { λ _ _ _ _. ⊤ };

    fn finished(&mut self, path: &str, _report: &FileReport) -> io::Result<()> {
        self.note(format!(in self.alloc; "finished {path}"));
        Ok(())
    }

    fn not_finished(&mut self, path: &str) -> io::Result<()> {
        self.note(format!(in self.alloc; "not finished {path}"));
        Ok(())
    }

    fn recovered(&mut self, path: &str, outcome: Recovered) -> io::Result<()> {
        let line = match outcome {
            Recovered::Placed { report, end } => {
                let FileReport {
                    messages,
                    records,
                    lost,
                    ..
                } = report;
                format!(in self.alloc; "{end:?} {messages} {records} {lost} {path}")
            }
            outcome => format!(in self.alloc; "{outcome:?} {path}"),
        };
        self.note(line);
        Ok(())
    }
}

/// The names of the files that begin with some octets.
#[derive(Clone, Copy)]
struct NamesOf {
    entry: Option<Entry>,
    is_one_file: bool,
    unfinished: u64,
    finished: u64,
}

// The names of the files that begin with these octets.
fn names_of(tree: &Tree, octets: &[u8]) -> NamesOf {
    let mut names = NamesOf {
        entry: None,
        is_one_file: true,
        unfinished: 0,
        finished: 0,
    };
    for name in &tree.names {
        if tree.octets_of(name.entry).starts_with(octets) {
            names.is_one_file = names.is_one_file
                && names.entry.unwrap_or(name.entry) == name.entry;
            names.entry = Some(name.entry);
            if is_final(name) {
                names.finished = names.finished.saturating_add(1);
            } else {
                names.unfinished = names.unfinished.saturating_add(1);
            }
        }
    }
    names
}

// Whether it is a final name.
fn is_final(name: &Name) -> bool {
    name.path.as_str().ends_with(".ipfix")
}

/// What is said of a file whose cut-off octets stay: the tests leave nine of them.
const STILL_CUT_OFF: &str = "Truncated(9) 0 0 0 ";

// Whether a name has what it may have: a final one a file that was acknowledged, and no octet more, unless it
// was said that they stay. Where a disk has no hard links an empty file may have taken the name.
fn has_its_own(tree: &Tree, name: &Name, kept: &[Vec<u8>], lines: &[String]) -> bool {
    let octets = tree.octets_of(name.entry);
    if !is_final(name) || (octets.is_empty() && !tree.has_links) {
        return true;
    }
    kept.iter().any(|file| file.as_slice() == octets)
        || is_said(lines, STILL_CUT_OFF, name.path.as_str())
}

// Whether one of the lines says this of a path.
fn is_said(lines: &[String], what: &str, path: &str) -> bool {
    lines
        .iter()
        .any(|line| line.as_str().strip_prefix(what) == Some(path))
}

/// Fails unless it is so.
pub fn check(is_so: bool, case: &str, what: &str) -> Result<(), Fail> {
    if is_so {
        Ok(())
    } else {
        Err(Fail::new(format_args!("{case}: {what}")))
    }
}

/// Each of these files stands whole under one of its names, or under two of one file.
pub fn check_named(tree: &Tree, kept: &[Vec<u8>], case: &str) -> Result<(), Fail> {
    for file in kept {
        let names = names_of(tree, file.as_slice());
        check(names.entry.is_some(), case, "a file has no name")?;
        check(names.is_one_file, case, "a file stands twice")?;
        check(
            names.unfinished <= 1 && names.finished <= 1,
            case,
            "a file has two names of a kind",
        )?;
    }
    Ok(())
}

/// No final name has anything but one of these files.
pub fn check_finals(
    tree: &Tree,
    kept: &[Vec<u8>],
    lines: &[String],
    case: &str,
) -> Result<(), Fail> {
    for name in &tree.names {
        let is_right = has_its_own(tree, name, kept, lines);
        check(is_right, case, name.path.as_str())?;
    }
    Ok(())
}

/// Each of these files has its final name, and no other.
pub fn check_settled(tree: &Tree, kept: &[Vec<u8>], case: &str) -> Result<(), Fail> {
    for file in kept {
        let names = names_of(tree, file.as_slice());
        check(
            names.finished == 1 && names.unfinished == 0,
            case,
            "a file hasn't its final name, or has another",
        )?;
    }
    Ok(())
}

/// Each path that was said to be that of a finished file is that of one of these.
pub fn check_said(tree: &Tree, kept: &[Vec<u8>], lines: &[String], case: &str) -> Result<(), Fail> {
    for line in lines {
        if let Some(path) = line.as_str().strip_prefix("finished ") {
            let octets = tree.octets(path);
            let is_kept = kept.iter().any(|file| Some(file.as_slice()) == octets);
            check(is_kept, case, path)?;
        }
    }
    Ok(())
}
