//! Rows that are read one after another, with the prefixes that they have.

ghost use Rattle.std.specs.Prelude.{◌≡◌, [], OnOk};
ghost use Rattle.prefix_numbers.specs.Keys.{key_of as key_of_prefix, AddsLine, AddsRow, HasKeys};
ghost use Rattle.prefix_numbers.specs.Texts as texts;

use crate::error::MapFault;
use crate::reading::MAX_ROWS;
use crate::row::{NumberedPrefix, read_row};
use network_prefixes::Prefix;
use std::alloc::Global;
use std::collections::HashSet;

/// The rows of a text up to some line, and their prefixes: of each its family, its length and its address.
#[derive(Drop)]
pub struct RowKeys {
    pub rows: Vec<NumberedPrefix>,
    pub keys: HashSet<(u8, u8, u128)>,
}

impl RowKeys {
    /// No rows.
    pub fn new(alloc: Global) -> RowKeys
        ensures rows { result.rows.items ≡ [] }
        ensures keys { HasKeys result }
    {
        RowKeys {
            rows: Vec::new(alloc),
            keys: HashSet::new(alloc),
        }
    }

    /// Adds the row of a line, if it is one.
    pub fn add_line(&mut self, line: &str) -> Result<(), MapFault>
        requires { HasKeys self.old }
        ensures keys { OnOk result (HasKeys self.new) }
        ensures rows { AddsLine self.old.rows.items line.now self.new.rows.items result }
    {
        if says_row(line) {
            self.add_row(read_row(line)?)
        } else {
            Ok(())
        }
    }

    // Adds a row, if its prefix is new and there is place for it.
    fn add_row(&mut self, row: NumberedPrefix) -> Result<(), MapFault>
        requires { HasKeys self.old }
        ensures keys { OnOk result (HasKeys self.new) }
        ensures rows { AddsRow self.old.rows.items row self.new.rows.items result }
    {
        if !self.keys.insert(key_of(&row.prefix))? {
            return Err(MapFault::PrefixTwice);
        }
        if self.rows.len() >= MAX_ROWS {
            return Err(MapFault::TooMany);
        }
        self.rows.push(row)?;
        Ok(())
    }
}

fn key_of(prefix: &Prefix) -> (u8, u8, u128)
    ensures { result ≡ key_of_prefix prefix.now }
{
    (prefix.address.width, prefix.length, prefix.address.bits)
}

// Whether a line is a row: it is neither empty nor a remark.
fn says_row(line: &str) -> bool
    ensures { result ≡ texts.says_row line.now }
{
    match line.as_bytes() {
        [first, ..] => *first != b'#',
        [] => false,
    }
}
