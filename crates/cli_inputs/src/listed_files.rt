//! The files that words and a list name.

use input_files::ReadText;
use report_writing::{Reason, Status, Verbosity, write_not_had_because};
use std::alloc::{AllocError, Global};
use std::io::{Stderr, Write};

/// The word for standard input, and the file that it is.
const STANDARD_INPUT: (&str, &str) = ("-", "/dev/stdin");

/// The text of a list of files, or an empty one if there is no list. If it can't be read, or isn't UTF-8, `err` has
/// a line.
pub fn read_list(
    rt: &HostRuntime,
    list: Option<&str>,
    verbosity: Verbosity,
    err: &mut Stderr,
) -> Result<String, Status> {
    let Some(path) = list else {
        return Ok(String::new(rt.alloc()));
    };
    let name = if path == STANDARD_INPUT.0 {
        STANDARD_INPUT.1
    } else {
        path
    };
    match read_text_of(rt, name) {
        Ok(text) => Ok(text),
        Err(reason) => {
            let _ = write_not_had_because(verbosity, "open", path, reason, err);
            Err(Status::NotOpened)
        }
    }
}

fn read_text_of(rt: &HostRuntime, name: &str) -> Result<String, Reason> {
    let octets = rt.read_text(rt.alloc(), name)?;
    String::from_utf8(octets).map_err(|_| Reason::Other)
}

/// The paths that stand as words, and after them those of a list, one a line. An empty line is passed over.
pub fn all_paths<'w>(
    alloc: Global,
    words: &[&'w str],
    list: &'w str,
) -> Result<Vec<&'w str>, AllocError> {
    let mut paths = Vec::new(alloc);
    paths.extend_from_slice(words)?;
    for line in list.lines() {
        if !line.is_empty() {
            paths.push(line)?;
        }
    }
    Ok(paths)
}

/// Sees to it that standard input is read at most once: as one of the files, or as the list of files. If it isn't,
/// `err` has a line.
pub fn check_paths(paths: &[&str], list: Option<&str>, err: &mut Stderr) -> Result<(), Status> {
    let word = STANDARD_INPUT.0;
    if list == Some(word) && paths.contains(&word) {
        let _ = writeln!(
            err,
            "error: standard input ('-') can't be the list of files and one of them"
        );
        return Err(Status::NotOpened);
    }
    if stands_twice(paths, word) {
        let _ = writeln!(
            err,
            "error: standard input ('-') can be one of the files only once"
        );
        return Err(Status::NotOpened);
    }
    Ok(())
}

fn stands_twice(words: &[&str], word: &str) -> bool {
    let mut found = false;
    for other in words {
        if *other == word {
            if found {
                return true;
            }
            found = true;
        }
    }
    false
}
