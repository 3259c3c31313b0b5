//! Whose the files of a command line are.

use exporter_names::{ToldExporter, recorded_exporter};
use report_writing::Status;
use std::alloc::{AllocError, Global};
use std::io::{Stderr, Write};
use std::net::IpAddr;

/// Sees to it that each word is FILE=ADDRESS, and that each FILE is one of the paths and stands in one word. If not,
/// `err` has a line.
pub fn check_exporters(paths: &[&str], words: &[&str], err: &mut Stderr) -> Result<(), Status> {
    for (place, word) in words.iter().enumerate() {
        if let Some(what) = wrong_with(paths, *word, &words[place + 1..]) {
            let _ = writeln!(err, "error: --exporter '{word}' {what}");
            return Err(Status::NotOpened);
        }
    }
    Ok(())
}

// What is wrong with a word that others follow, if anything is.
fn wrong_with(paths: &[&str], word: &str, others: &[&str]) -> Option<&'static str> {
    let Some(told) = ToldExporter::parse(word) else {
        return Some("is not FILE=ADDRESS");
    };
    if !paths.contains(&told.file) {
        return Some("names no file that is read");
    }
    if told_exporter(others, told.file).is_some() {
        return Some("names a file that another one names");
    }
    None
}

/// The exporter of each path, by its place: the one that a word tells, else the peer that the name of a recording's
/// file tells, if it is one.
pub fn place_exporters(
    alloc: Global,
    paths: &[&str],
    words: &[&str],
) -> Result<Vec<Option<IpAddr>>, AllocError> {
    let mut exporters = Vec::new(alloc);
    for path in paths {
        let exporter = match told_exporter(words, *path) {
            Some(address) => Some(address),
            None => recorded_exporter(alloc, *path)?,
        };
        exporters.push(exporter)?;
    }
    Ok(exporters)
}

// The exporter that the first word of a file tells.
fn told_exporter(words: &[&str], file: &str) -> Option<IpAddr> {
    for word in words {
        match ToldExporter::parse(*word) {
            Some(told) if told.file == file => return Some(told.address),
            _ => {}
        }
    }
    None
}
