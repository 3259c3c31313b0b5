//! The tables of parts, as their receipts say them.

ghost use Rattle.std.specs.Prelude.{◌≡◌, ◌↔◌, map, IfOk, IfSome, IsTrue};
ghost use Rattle.receipt_merging.specs.Parts.{part_value};
ghost use Rattle.table_parts.specs.Tables.{HasInput, IsItsTable, said_by, tables_said};

use crate::files::PartFiles;
use receipt_merging::Part;
use sha2::{Digest, Sha256};
use std::alloc::{AllocError, Global};

/// The table of a part, as its receipt says it.
#[derive(Clone, Copy)]
pub struct PartTable<'a> {
    pub files: PartFiles<'a>,
    /// How many inputs it was made of.
    pub inputs: usize,
    /// How many octets it has, and their SHA-256.
    pub octets: u64,
    pub sha256: [u8; 32],
}

/// The tables of parts, as their receipts say them. The files have the places of the parts.
pub fn tables_of<'a>(
    alloc: Global,
    all: &[PartFiles<'a>],
    parts: &[Part],
) -> Result<Vec<PartTable<'a>>, AllocError>
    ensures { IfOk result (λ tables. tables.items ≡ tables_said all.now (map part_value parts.now)) }
{
    let mut tables = Vec::with_capacity(alloc, parts.len())?;
    for (place, part) in parts.iter().enumerate() {
        match all.get(place) {
            Some(files) => tables.push(table_of(*files, part))?,
            None => return Ok(tables),
        }
    }
    Ok(tables)
}

fn table_of<'a>(files: PartFiles<'a>, part: &Part) -> PartTable<'a>
    ensures { result ≡ said_by files.entry (part_value part.now) }
{
    let table = &part.receipt.table;
    PartTable {
        files,
        inputs: part.receipt.inputs.len(),
        octets: table.octets,
        sha256: table.sha256,
    }
}

/// The number, counted from 1, and the files of the table that has the input at a place, counted from 0 over all tables.
pub fn table_of_input<'a>(tables: &[PartTable<'a>], place: usize) -> Option<(usize, PartFiles<'a>)>
    ensures { IfSome result (λ found. HasInput tables.now place found.0 found.1) }
{
    let mut left = place;
    for (index, table) in tables.iter().enumerate() {
        if left < table.inputs {
            return Some((index + 1, table.files));
        }
        left -= table.inputs;
    }
    None
}

/// Whether octets are those of a table, as its receipt says it.
pub fn is_its_table(table: &PartTable, octets: &[u8]) -> bool
    ensures { IsTrue result ↔ IsItsTable table.now octets.now }
{
    table.octets == octets.len() as u64 && table.sha256 == Sha256::digest(octets)
}
