//! The receipts of files that are merged.

use crate::arguments::MergeArguments;
use report_writing::Status;
use std::alloc::{AllocError, Global};
use std::io::{Stderr, Write};

/// Sees to it that receipts are asked for if anything is said of them, that no file is standard input then, and that each word
/// is FILE=RECEIPT, each FILE one of the paths, which stands in one word. If not, `err` has a line.
pub fn check_receipts(arguments: &MergeArguments, err: &mut Stderr) -> Result<(), Status> {
    if let Some(what) = wrong_without_receipts(arguments) {
        let _ = writeln!(err, "error: {what} is of no use without --receipts");
        return Err(Status::NotOpened);
    }
    if arguments.receipts && arguments.paths.contains(&"-") {
        let _ = writeln!(
            err,
            "error: standard input ('-') can't be merged with --receipts"
        );
        return Err(Status::NotOpened);
    }
    let words = arguments.receipts_of;
    for (place, word) in words.iter().enumerate() {
        if let Some(what) = wrong_with(arguments.paths, *word, &words[place + 1..]) {
            let _ = writeln!(err, "error: --receipt-of '{word}' {what}");
            return Err(Status::NotOpened);
        }
    }
    Ok(())
}

// What is of no use, if anything is.
fn wrong_without_receipts(arguments: &MergeArguments) -> Option<&'static str> {
    if arguments.receipts {
        None
    } else if !arguments.receipts_of.is_empty() {
        Some("--receipt-of")
    } else if arguments.receipt.is_some() {
        Some("--receipt")
    } else if arguments.incomplete {
        Some("--incomplete")
    } else {
        None
    }
}

// What is wrong with a word that others follow, if anything is. It is cut at the last `=`.
fn wrong_with(paths: &[&str], word: &str, others: &[&str]) -> Option<&'static str> {
    let Some((file, _)) = word.rsplit_once('=') else {
        return Some("is not FILE=RECEIPT");
    };
    if !paths.contains(&file) {
        return Some("names no file that is merged");
    }
    if told_receipt(others, file).is_some() {
        return Some("names a file that another one names");
    }
    None
}

/// The path of the receipt of each path, by its place: the one that a word tells, else FILE.receipt.
pub fn receipt_paths(
    alloc: Global,
    paths: &[&str],
    words: &[&str],
) -> Result<Vec<String>, AllocError> {
    let mut receipts = Vec::new(alloc);
    for path in paths {
        receipts.push(receipt_path(alloc, *path, words)?)?;
    }
    Ok(receipts)
}

fn receipt_path(alloc: Global, path: &str, words: &[&str]) -> Result<String, AllocError> {
    match told_receipt(words, path) {
        Some(receipt) => String::from_str(alloc, receipt),
        None => format!(in alloc; "{path}.receipt"),
    }
}

// The receipt that the first word of a file tells.
fn told_receipt<'w>(words: &[&'w str], file: &str) -> Option<&'w str> {
    for word in words {
        match word.rsplit_once('=') {
            Some((told, receipt)) if told == file => return Some(receipt),
            _ => {}
        }
    }
    None
}
