//! What is told of elements that nothing names.

use super::{STRICT, VERBOSE, report_of};
use element_registry::{Elements, add_file};
use report_sessions::write_told_session;
use report_writing::{Origin, Verbosity};
use std::alloc::{AllocError, Global};
use std::test::*;
use worked_examples::header;

// The octets of field specifiers of 4 octets each: octetDeltaCount, and elements 105, 212 and 14 of
// enterprise 6871.
const OCTETS: [u8; 4] = [0, 1, 0, 4];

const E105: [u8; 4] = [0, 105, 0, 4];

const E212: [u8; 4] = [0, 212, 0, 4];

const E6871_14: [u8; 8] = [0x80, 14, 0, 4, 0, 0, 0x1a, 0xd7];

// Appends a message of a domain that brings a template of so many fields, by its specifiers.
fn append_template(
    alloc: Global,
    out: &mut Vec<u8>,
    domain: u32,
    [id, count]: [u8; 2],
    specifiers: &[&[u8]],
) -> Result<(), AllocError> {
    let mut set = Vec::from_slice(alloc, &[1, id, 0, count])?;
    for specifier in specifiers {
        set.extend_from_slice(specifier)?;
    }
    let length = u16::try_from(set.len()).unwrap_or(1000).min(1000) + 4;
    out.extend_from_slice(&header(16 + length, 0, domain))?;
    out.extend_from_slice(&[0, 2])?;
    out.extend_from_slice(&length.to_be_bytes())?;
    out.extend_from_slice(&set)
}

// What is told of a session of these octets, without the line of its end.
fn told(
    alloc: Global,
    verbosity: Verbosity,
    elements: &Elements,
    text: &[u8],
) -> Result<Vec<u8>, Fail> {
    let full = report_of(alloc, text)?;
    let mut err = Vec::new(alloc);
    let origin = &Origin::Unknown;
    write_told_session(verbosity, elements, 1, origin, None, &full, &mut err)?;
    Ok(err)
}

// Two templates of domain 2, which share an element, and one of domain 1.
fn three_templates(alloc: Global) -> Result<Vec<u8>, AllocError> {
    let mut text = Vec::new(alloc);
    append_template(alloc, &mut text, 2, [1, 3], &[&E212, &OCTETS, &E212])?;
    append_template(alloc, &mut text, 1, [0, 2], &[&E6871_14, &E212])?;
    append_template(alloc, &mut text, 2, [0, 2], &[&E105, &E212])?;
    Ok(text)
}

#[test]
fn tells_elements_without_a_name(rt: HostRuntime) -> Result<(), Fail> {
    let alloc: Global = rt.alloc();
    let text = three_templates(alloc)?;
    let built_in = Elements::built_in(alloc);
    let wanted = "collectd: session 1: elements without a name 3: e0.105 e0.212 e6871.14
collectd: session 1: ended: messages 3 octets 104 records 0
";
    assert_eq!(rt;
        told(alloc, VERBOSE, &built_in, &text)?.as_slice(),
        wanted.as_bytes()
    );
    assert_eq!(rt; told(alloc, STRICT, &built_in, &text)?.len(), 0);
    Ok(())
}

#[test]
fn names_of_files_are_names(rt: HostRuntime) -> Result<(), Fail> {
    let alloc: Global = rt.alloc();
    let text = three_templates(alloc)?;
    let file = "Enterprise,ElementID,Name,Abstract Data Type
0,105,one,unsigned32
6871,14,two,unsigned32
";
    let Ok(added) = add_file(alloc, Elements::built_in(alloc), file.as_bytes()) else {
        return Err("no elements".into());
    };
    let wanted = "collectd: session 1: elements without a name 1: e0.212
collectd: session 1: ended: messages 3 octets 104 records 0
";
    assert_eq!(rt;
        told(alloc, VERBOSE, &added.elements, &text)?.as_slice(),
        wanted.as_bytes()
    );
    Ok(())
}

#[test]
fn tells_none_of_what_is_not_in_force(rt: HostRuntime) -> Result<(), Fail> {
    let alloc: Global = rt.alloc();
    let built_in = Elements::built_in(alloc);
    let mut text = Vec::new(alloc);
    append_template(alloc, &mut text, 1, [0, 2], &[&OCTETS, &E105])?;
    append_template(alloc, &mut text, 1, [1, 1], &[&OCTETS])?;
    let mut withdrawn = text.clone()?;
    append_template(alloc, &mut withdrawn, 1, [0, 0], &[])?;
    let wanted = "collectd: session 1: ended: messages 3 octets 84 records 0\n";
    assert_eq!(rt;
        told(alloc, VERBOSE, &built_in, &withdrawn)?.as_slice(),
        wanted.as_bytes()
    );
    // A message of version 9 ends the session.
    text.extend_from_slice(&[0, 9, 0, 16])?;
    text.extend_from_slice(&[0; 12])?;
    let wanted = "collectd: session 1: fault 1 Version
collectd: session 1: fault 1 Version: message 3 octet 60
collectd: session 1: ended: messages 2 octets 60 records 0
";
    assert_eq!(rt;
        told(alloc, VERBOSE, &built_in, &text)?.as_slice(),
        wanted.as_bytes()
    );
    Ok(())
}

// A session with a template of elements 20001, 20002 and so on, so many.
fn many(alloc: Global, count: u8) -> Result<Vec<u8>, AllocError> {
    let mut specifiers = Vec::new(alloc);
    for i in 0..u16::from(count) {
        specifiers.extend_from_slice(&(20001 + i).to_be_bytes())?;
        specifiers.extend_from_slice(&[0, 4])?;
    }
    let mut text = Vec::new(alloc);
    append_template(alloc, &mut text, 1, [0, count], &[&specifiers])?;
    Ok(text)
}

#[test]
fn tells_the_first_sixty_four(rt: HostRuntime) -> Result<(), Fail> {
    let alloc: Global = rt.alloc();
    let built_in = Elements::built_in(alloc);
    for (count, number) in [(63, "63"), (64, "64"), (65, "over 64"), (200, "over 64")] {
        let mut wanted = format!(in alloc;
            "collectd: session 1: elements without a name {number}:"
        )?;
        for i in 0..u16::from(count).min(64) {
            wanted.push_str(&format!(in alloc; " e0.{}", 20001 + i)?)?;
        }
        let octets = 24 + 4 * u16::from(count);
        wanted.push_str(&format!(in alloc;
            "\ncollectd: session 1: ended: messages 1 octets {octets} records 0\n"
        )?)?;
        let text = many(alloc, count)?;
        assert_eq!(rt;
            told(alloc, VERBOSE, &built_in, &text)?.as_slice(),
            wanted.as_bytes()
        );
    }
    Ok(())
}
