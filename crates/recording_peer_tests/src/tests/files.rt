//! What stands in the files of a peer (RFC 7011, sections 8.1 and 8.4).

use super::datagrams::*;
use super::running::{files_of, told_as_one, told_by};
use super::told::{finish, new_peer, take};
use recording_files::MemoryFiles;
use std::alloc::{AllocError, Global};
use std::process::Abort;
use std::test::*;
use worked_examples::recordings::{FIRST_OF_1, FIRST_OF_2};
use worked_examples::{header, text_of};

// No file is finished before a datagram of this number.
const NEVER: usize = 100;

// A message without sets, and one with this set.
fn preamble(alloc: Global, sequence: u32, domain: u32, set: &[u8]) -> Result<Vec<u8>, AllocError> {
    let length = u16::try_from(set.len()).unwrap_or(0).saturating_add(16);
    let mut octets = Vec::from_slice(alloc, &header(16, sequence, domain))?;
    octets.extend_from_slice(&header(length, sequence, domain))?;
    octets.extend_from_slice(set)?;
    Ok(octets)
}

#[test]
fn datagrams_stand_as_they_came(rt: HostRuntime) -> Result<(), Fail> {
    let alloc: Global = rt.alloc();
    let datagrams = [FIRST_OF_1, FIRST_OF_2, SECOND_OF_1];
    let files = files_of(&rt, rt.alloc(), &datagrams, NEVER);
    let text = text_of(alloc, &datagrams)?;
    let found = (files.finished.len(), files.unfinished.as_slice());
    assert_eq!(rt; found, (0, text.as_slice()));
    Ok(())
}

// In front of the datagram that changes template 257 a message withdraws it, with the sequence number that is
// due, which is 5.
#[test]
fn a_changed_template_is_withdrawn(rt: HostRuntime) -> Result<(), Fail> {
    let files = files_of(&rt, rt.alloc(), &DATAGRAMS, NEVER);
    let text = text_of(
        rt.alloc(),
        &[
            FIRST_OF_1,
            FIRST_OF_2,
            SECOND_OF_1,
            WITHDRAWAL_OF_257,
            CHANGES_257,
            LAST_OF_1,
            LAST_OF_2,
        ],
    )?;
    let found = (files.finished.len(), files.unfinished.as_slice());
    assert_eq!(rt; found, (0, text.as_slice()));
    Ok(())
}

// In front of the next datagram with records of a template that the exporter withdrew a message defines it again,
// with the sequence number that is due, which is 12.
#[test]
fn a_withdrawn_template_is_defined_again(rt: HostRuntime) -> Result<(), Fail> {
    let datagrams = [FIRST_OF_1, WITHDRAWS_256, SECOND_OF_1, SECOND_OF_1];
    let files = files_of(&rt, rt.alloc(), &datagrams, NEVER);
    let text = text_of(
        rt.alloc(),
        &[
            FIRST_OF_1,
            WITHDRAWS_256,
            DEFINITION_OF_256,
            SECOND_OF_1,
            SECOND_OF_1,
        ],
    )?;
    assert_eq!(rt; files.unfinished.as_slice(), text.as_slice());
    Ok(())
}

// Where the datagram is the first of its domain in a file, the message stands after the preamble, which has both
// templates; before the first datagram of domain 2 stands its own.
#[test]
fn a_changed_template_is_withdrawn_after_the_preamble(rt: HostRuntime) -> Result<(), Fail> {
    let files = files_of(&rt, rt.alloc(), &DATAGRAMS, 3);
    let first = text_of(rt.alloc(), &[FIRST_OF_1, FIRST_OF_2, SECOND_OF_1])?;
    let second = text_after_preambles(rt.alloc())?;
    let finished = files.finished.first().map(|file| file.as_slice());
    assert_eq!(rt;
        (files.finished.len(), finished, files.unfinished.as_slice()),
        (1, Some(first.as_slice()), second.as_slice())
    );
    Ok(())
}

fn text_after_preambles(alloc: Global) -> Result<Vec<u8>, AllocError> {
    let of_1 = preamble(alloc, 5, 1, &FIRST_OF_1[16..36])?;
    let of_2 = preamble(alloc, 1, 2, &FIRST_OF_2[16..34])?;
    text_of(
        alloc,
        &[
            &of_1,
            TEMPLATE_257,
            WITHDRAWAL_OF_257,
            CHANGES_257,
            LAST_OF_1,
            &of_2,
            LAST_OF_2,
        ],
    )
}

// Each file is read by itself, and one after another they give the records of the datagrams.
#[test]
fn files_have_the_records_of_the_datagrams(rt: HostRuntime) -> Result<(), Fail> {
    let files = files_of(&rt, rt.alloc(), &DATAGRAMS, NEVER);
    assert_eq!(rt; told_by(&rt, rt.alloc(), &files)?.as_slice(), TOLD);
    Ok(())
}

// The same wherever a file is finished; and one after another the files are read as one.
#[test]
fn a_file_is_finished_before_any_datagram(rt: HostRuntime) -> Result<(), Fail> {
    let alloc: Global = rt.alloc();
    assert_told(&rt, alloc, 0, 0)?;
    assert_told(&rt, alloc, 1, 1)?;
    assert_told(&rt, alloc, 2, 1)?;
    assert_told(&rt, alloc, 3, 1)?;
    assert_told(&rt, alloc, 4, 1)?;
    assert_told(&rt, alloc, 5, 1)?;
    Ok(())
}

// That so many files are finished where one is before the datagram of this number, and what they tell.
fn assert_told(
    rt: &impl Abort,
    alloc: Global,
    before: usize,
    finished: usize,
) -> Result<(), AllocError> {
    let files = files_of(rt, alloc, &DATAGRAMS, before);
    let told = told_by(rt, alloc, &files)?;
    let as_one = told_as_one(rt, alloc, &files)?;
    assert_eq!(rt;
        (files.finished.len(), told.as_slice(), as_one.as_slice()),
        (finished, TOLD, TOLD)
    );
    Ok(())
}

// Files after their end before any datagram, and twice after one; with whether each call answered well.
fn ended_often(alloc: Global) -> (MemoryFiles, bool) {
    let mut peer = new_peer(alloc);
    let mut files = MemoryFiles::new(alloc, 1000);
    let first = finish(&mut peer, &mut files);
    let taken = take(alloc, &mut peer, FIRST_OF_1, &mut files);
    let second = finish(&mut peer, &mut files);
    let third = finish(&mut peer, &mut files);
    let right = (taken.is_ok(), [first, second, third]) == (true, [Ok(()); 3]);
    (files, right)
}

// A file without a datagram is not finished.
#[test]
fn no_file_is_empty(rt: HostRuntime) -> Result<(), Fail> {
    let (files, right) = ended_often(rt.alloc());
    let found = (right, files.finished.len(), files.unfinished.len());
    assert_eq!(rt; found, (true, 1, 0));
    Ok(())
}

// A template that changes back and forth: each record by the template before it.
#[test]
fn a_template_changes_again_and_again(rt: HostRuntime) -> Result<(), Fail> {
    let datagrams = [FIRST_OF_1, CHANGES_257, FIRST_OF_1, CHANGES_257];
    let files = files_of(&rt, rt.alloc(), &datagrams, NEVER);
    let due = text_of(
        rt.alloc(),
        &[TOLD_FIRST, TOLD_CHANGED, TOLD_FIRST, TOLD_CHANGED],
    )?;
    let told = told_by(&rt, rt.alloc(), &files)?;
    let found = (files.finished.len(), told.as_slice());
    assert_eq!(rt; found, (0, due.as_slice()));
    Ok(())
}
