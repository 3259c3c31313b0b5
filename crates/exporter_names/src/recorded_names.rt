//! The exporter that the name of a recording's file tells.

ghost use Rattle.std.specs.Prelude.{◌≡◌, IfOk};
ghost use Rattle.std.specs.Net.Grammar.{IsIpText};
ghost use Rattle.exporter_names.specs.Cuts.{CutsAtLast};
ghost use Rattle.exporter_names.specs.Finding.{Finds};
ghost use Rattle.exporter_names.specs.RecordedExporters.{IsFileName, IsFinishedOf, IsRecorded, IsRecordedExporter, slash, with_colons as colons};

use recording_names::read_finished_name;
use std::alloc::{AllocError, Global};
use std::net::IpAddr;

/// The peer whose session wrote a file, by the file's path, if that is the path of a recording's finished file.
pub fn recorded_exporter(alloc: Global, path: &str) -> Result<Option<IpAddr>, AllocError>
    ensures { IfOk result (Finds (IsRecordedExporter path.now)) }
{
    exporter_in_name(alloc, file_name(path))
}

/// The last name of a path.
pub fn file_name(path: &str) -> &str
    ensures { IsFileName path.now result.now }
{
    match after_slash(path) {
        Some(parts) => parts.1,
        None => path,
    }
}

// What stands before and after the last `/`.
fn after_slash(path: &str) -> Option<(&str, &str)>
    ensures { CutsAtLast slash path.now result }
{
    path.rsplit_once('/')
}

// The peer of the session whose finished file has this name.
fn exporter_in_name(alloc: Global, name: &str) -> Result<Option<IpAddr>, AllocError>
    ensures { IfOk result (Finds (IsRecorded name.now)) }
{
    match read_finished_name(name) {
        Some(told) => {
            let session = told.session;
            address_of(alloc, name, session.address, session.port, session.number)
        }
        None => Ok(None),
    }
}

// The same, if it is the name of a session's finished file with such an address, port and number.
fn address_of(
    alloc: Global,
    name: &str,
    address: &str,
    port: u16,
    number: u64,
) -> Result<Option<IpAddr>, AllocError>
    requires { IsFinishedOf name.now address.now port number }
    ensures { IfOk result (Finds (IsRecorded name.now)) }
{
    // (with these in use, a proof knows that they are in range)
    let _numbers = (port, number);
    read_address(alloc, address)
}

// The address that a text is with colons for its hyphens.
fn read_address(alloc: Global, text: &str) -> Result<Option<IpAddr>, AllocError>
    ensures { IfOk result (Finds (IsIpText (colons text.now))) }
{
    let octets = with_colons(alloc, text.as_bytes())?;
    match IpAddr::parse_ascii(&octets) {
        Ok(address) => Ok(Some(address)),
        Err(_) => Ok(None),
    }
}

fn with_colons(alloc: Global, text: &[u8]) -> Result<Vec<u8>, AllocError>
    ensures { IfOk result (λ octets. octets.items ≡ colons text.now) }
{
    let mut octets = Vec::with_capacity(alloc, text.len())?;
    let mut left = text;
    while let [first, others @ ..] = left {
        octets.push(if *first == b'-' { b':' } else { *first })?;
        left = others;
    }
    Ok(octets)
}
