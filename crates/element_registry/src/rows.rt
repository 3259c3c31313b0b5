//! The rows of a text of comma-separated values (RFC 4180).

ghost use Rattle.std.specs.Prelude.{◌≡◌, ◌≤◌, length, IfOk, IfErr, if◌then◌else◌};
ghost use Rattle.csv.specs.Reading.{stops_reader};
ghost use Rattle.element_registry.specs.Files.{AreRows};
ghost use Rattle.element_registry.specs.TextLines.{BeginsAt, line_at as line_at_place};
ghost use Rattle.element_registry.specs.declared.fault.ElementsFault.TheVariants.{NotCsv, OutOfMemory};

use crate::fault::ElementsFault;
use csv::{ByteRecord, ErrorKind, ReaderBuilder};
use std::alloc::Global;

/// A row of a text.
#[derive(Drop)]
pub struct Row {
    pub record: ByteRecord,
    /// The place of its first octet in the text.
    pub place: usize,
}

/// The rows of a text, its first line among them. They may differ in length, so an `Err` is want of memory.
pub fn read_rows(alloc: Global, text: &[u8]) -> Result<Vec<Row>, ElementsFault>
    ensures ok { IfOk result (λ rows. AreRows text.now rows.items) }
    ensures err { IfErr result (λ fault. fault ≡ OutOfMemory) }
{
    let reader = ReaderBuilder::new()
        .has_headers(false)
        .flexible(true)
        .from_reader(alloc, text);
    let mut rows = Vec::new(alloc);
    for row in reader.into_byte_records() {
        match row {
            Ok(record) => {
                let place = place_of(text, &record);
                rows.push(Row { record, place })?;
            }
            Err(error) => return Err(fault_of(error.kind())),
        }
    }
    Ok(rows)
}

// What stops the reader of a text is want of memory.
fn fault_of(kind: &ErrorKind) -> ElementsFault
    ensures { result ≡ (if stops_reader kind.now then OutOfMemory else NotCsv) }
{
    match kind {
        ErrorKind::OutOfMemory | ErrorKind::Io(_) => ElementsFault::OutOfMemory,
        _ => ElementsFault::NotCsv,
    }
}

// The place at which a row of a text begins.
fn place_of(text: &[u8], row: &ByteRecord) -> usize
    ensures { BeginsAt text.now result }
{
    let told = match row.position() {
        Some(position) => usize::try_from(position.byte()).unwrap_or(text.len()),
        None => 0,
    };
    after_ends_of_lines(text, told.min(text.len()))
}

// The first place from this one on at which no line ends: a reader passes over ends of lines before a row.
fn after_ends_of_lines(text: &[u8], from: usize) -> usize
    requires { from ≤ length text.now }
    ensures { BeginsAt text.now result }
{
    let mut place = from;
    while place < text.len() && (text[place] == b'\n' || text[place] == b'\r') {
        place += 1;
    }
    place
}

/// The line in which a place of a text stands, from 1.
#[tactic(auto, using(std::proofs::lemmas::List::take_min))]
pub fn line_at(text: &[u8], place: usize) -> u64
    ensures { result ≡ line_at_place text.now place }
{
    let mut line: u64 = 1;
    for octet in &text[..place.min(text.len())] {
        if *octet == b'\n' {
            line += 1;
        }
    }
    line
}
