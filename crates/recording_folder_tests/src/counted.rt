//! What is told of a file that an earlier run left: its counts, worked out by hand.

use super::script_file::lent;
use super::standing::check;
use super::trial::Trial;
use recording_files::FileReport;
use recording_folder::{open_folder, read_contents};
use std::io;
use std::test::*;

// Messages of domain 1 (RFC 7011, section 3.1): template 256, of protocolIdentifier alone; two records, with sequence number
// 0; and one record, with sequence number 5, where 2 was due. Then 9 octets of a header.
const COUNTED: &[u8] = b"\
    \x00\x0a\x00\x1c\0\0\0\0\0\0\0\0\0\0\0\x01\x00\x02\x00\x0c\x01\x00\x00\x01\x00\x04\x00\x01\
    \x00\x0a\x00\x16\0\0\0\0\0\0\0\0\0\0\0\x01\x01\x00\x00\x06\x06\x11\
    \x00\x0a\x00\x15\0\0\0\0\0\0\0\x05\0\0\0\x01\x01\x00\x00\x05\x06\
    \x00\x0a\x00\x16\0\0\0\0\0";

// The lengths of its first message, of its first two, and of all that are whole.
const FIRST: usize = 28;

const FIRST_TWO: usize = 50;

const WHOLE: usize = 71;

// A message whose body is no set.
const FAULTY: &[u8] = b"\x00\x0a\x00\x12\0\0\0\0\0\0\0\0\0\0\0\x01d1";

const UNFINISHED: &str = "unfinished/1795613700-192.0.2.1-40012-1";

const FINAL: &str = "2026-11-25/133500/192.0.2.1-40012-1.ipfix";

// Leaves a file with these octets, finishes it, and checks its line and the octets that it has then.
fn check_left(
    rt: &HostRuntime,
    pieces: &[&[u8]],
    line: (&str, &str),
    length: usize,
) -> Result<(), Fail> {
    let folder = open_folder(rt, rt.alloc(), "recordings")?;
    let trial = Trial::new(rt, &folder)?;
    let mut octets = Vec::new(trial.alloc);
    for piece in pieces {
        octets.extend_from_slice(*piece)?;
    }
    let path = trial.path(UNFINISHED)?;
    lent(&trial.tree)?.make_file(path.as_str(), octets.as_slice())?;
    check(trial.recover()? == 0, "recovery", "a file stays")?;
    trial.check_lines(&[line])?;
    match octets.as_slice().get(..length) {
        Some(kept) => trial.check_file(FINAL, kept),
        None => Err(Fail::new("the file is shorter")),
    }
}

#[test]
fn a_message_that_is_cut_is_not_counted(rt: HostRuntime) -> Result<(), Fail> {
    check_left(&rt, &[COUNTED], ("CutOff(9) 3 3 3 ", FINAL), WHOLE)
}

#[test]
fn a_fault_ends_the_counts_and_not_the_file(rt: HostRuntime) -> Result<(), Fail> {
    let rest = &COUNTED[FIRST_TWO..WHOLE];
    let pieces = [&COUNTED[..FIRST_TWO], FAULTY, rest];
    let length = FIRST_TWO + FAULTY.len() + rest.len();
    check_left(&rt, &pieces, ("Whole 2 2 0 ", FINAL), length)
}

#[test]
fn records_without_a_template_are_unaccounted(rt: HostRuntime) -> io::Result<()> {
    let mut reader = &COUNTED[FIRST..];
    let contents = read_contents(rt.alloc(), &mut reader)?;
    // (the first record set is unknown, and its two records and three more are before the next)
    let wanted = FileReport {
        messages: 2,
        unknown_sets: 2,
        unaccounted: 5,
        ..FileReport::EMPTY
    };
    assert!(rt; contents.whole == 43 && contents.report == wanted);
    Ok(())
}
