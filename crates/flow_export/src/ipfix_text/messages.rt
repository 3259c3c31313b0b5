//! Messages of one set (RFC 7011, sections 3.1 and 3.3).

ghost use Rattle.std.specs.Prelude.{◌≡◌, ◌+◌, ◌<◌, ◌≤◌, ◌^◌, All, drop, length, take, IfOk, OnOk};
ghost use Rattle.ipfix_wire.specs.declared.header.TheConstants.{HEADER_LENGTH};
ghost use Rattle.ipfix_wire.specs.declared.set.TheConstants.{SET_HEADER_LENGTH};
ghost use Rattle.flow_export.specs.Fitting.{IsExportable};
ghost use Rattle.flow_export.specs.IpfixText.{message as message_octets};
ghost use Rattle.flow_export.specs.RowOctets.{BeginsWithRows, headers_octets};

use crate::intervals::Intervals;
use crate::ipfix_text::rows::{MOST_OCTETS_A_ROW, ROWS_A_MESSAGE, place_rows};
use crate::table_rows::TableRows;
use flow_table::Plan;
use ipfix_elements::place;
use ipfix_wire::{
    FIRST_TEMPLATE_ID, HEADER_LENGTH, Header, SET_HEADER_LENGTH, write_header, write_set,
};
use std::alloc::AllocError;

/// The observation domain of all messages.
const DOMAIN: u32 = 0;

/// The octets of a message of one set before the body of the set.
const HEADERS_LENGTH: usize = HEADER_LENGTH + SET_HEADER_LENGTH;

/// The most octets of a message of rows.
pub const MOST_OCTETS: usize = HEADERS_LENGTH + MOST_OCTETS_A_ROW * ROWS_A_MESSAGE;

/// Makes a message of one set. What stood in `message` before is gone.
pub fn set_message(
    set_id: u16,
    body: &[u8],
    sequence: u32,
    export_time: u32,
    message: &mut Vec<u8>,
) -> Result<(), AllocError>
    requires { HEADER_LENGTH + SET_HEADER_LENGTH + length body.now < 2 ^ 16 }
    ensures { OnOk result
        (message.new.items ≡ message_octets export_time sequence set_id body.now) }
{
    set_headers(set_id, body.len(), sequence, export_time, message)?;
    message.extend_from_slice(body)?;
    Ok(())
}

/// Makes the message of the next rows in room for it, passes over them, and answers how long it is. The
/// headers are made in a vector of their own, since they say how long the rows are.
pub fn place_message(
    plan: &Plan,
    intervals: Intervals,
    rows: &mut TableRows,
    sequence: u32,
    export_time: u32,
    headers: &mut Vec<u8>,
    octets: &mut [u8],
) -> Result<usize, AllocError>
    requires fit { All (IsExportable plan.now) rows.old }
    requires room { length octets.old ≡ MOST_OCTETS }
    ensures message { IfOk result (BeginsWithRows intervals.entry plan.now export_time sequence
        (take ROWS_A_MESSAGE rows.old) octets.new) }
    ensures inside { IfOk result (λ end. end ≤ MOST_OCTETS) }
    ensures room { length octets.new ≡ MOST_OCTETS }
    ensures passes { OnOk result (rows.new ≡ drop ROWS_A_MESSAGE rows.old) }
{
    let end = place_rows(plan, intervals, rows, octets, HEADERS_LENGTH)?;
    let body = end - HEADERS_LENGTH;
    set_headers(FIRST_TEMPLATE_ID, body, sequence, export_time, headers)?;
    place(headers.as_slice(), octets, 0);
    Ok(end)
}

// Makes the headers of a message of one set, whose body has so many octets. What stood in `headers`
// before is gone.
fn set_headers(
    set_id: u16,
    body: usize,
    sequence: u32,
    export_time: u32,
    headers: &mut Vec<u8>,
) -> Result<(), AllocError>
    requires { HEADER_LENGTH + SET_HEADER_LENGTH + body < 2 ^ 16 }
    ensures { OnOk result (headers.new.items ≡ headers_octets export_time sequence set_id body) }
{
    let header = Header {
        length: (HEADERS_LENGTH + body) as u16,
        export_time,
        sequence,
        domain: DOMAIN,
    };
    headers.clear();
    write_header(&header, headers)?;
    write_set(set_id, body as u16, headers)?;
    Ok(())
}
