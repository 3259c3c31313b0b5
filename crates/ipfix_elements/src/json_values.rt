//! Values of fields as values of JSON (RFC 8259).

ghost use Rattle.std.specs.Prelude.{◌≡◌, ◌++◌, OnOk};
ghost use Rattle.ipfix_elements.specs.JsonValues.{json_cell, json_number};

use crate::cell::Cell;
use crate::text::write_cell;
use itoa::Buffer;
use std::alloc::AllocError;

/// Every reader of JSON holds the whole numbers below this exactly (RFC 7493, section 2.2).
pub const EXACT_LIMIT: u64 = 1 << 53;

/// Appends a number: its digits, between quotation marks from 2^53 on.
pub fn append_json_number(number: u64, out: &mut Vec<u8>) -> Result<(), AllocError>
    ensures { OnOk result (out.new.items ≡ out.old.items ++ json_number number) }
{
    let mut buffer = Buffer::new();
    let digits = buffer.format(number).as_bytes();
    if number < EXACT_LIMIT {
        return out.extend_from_slice(digits);
    }
    out.extend_from_slice(b"\"")?;
    out.extend_from_slice(digits)?;
    out.extend_from_slice(b"\"")
}

/// Appends a cell: a number as [`append_json_number`] does, an address between quotation marks.
pub fn append_json_cell(cell: &Cell, out: &mut Vec<u8>) -> Result<(), AllocError>
    ensures { OnOk result (out.new.items ≡ out.old.items ++ json_cell cell.now) }
{
    match cell {
        Cell::Number(number) => append_json_number(*number, out),
        Cell::Ipv4(_) | Cell::Ipv6(_) | Cell::Mac(_) => {
            out.extend_from_slice(b"\"")?;
            // A vector fails only if memory runs out.
            write_cell(cell, out).map_err(|_| AllocError)?;
            out.extend_from_slice(b"\"")
        }
    }
}
