//! Messages that withdraw templates (RFC 7011, section 8.1).

ghost use Rattle.std.specs.Prelude.{◌≡◌, ◌≤◌, ◌++◌, length, Ok, OnOk};
ghost use Rattle.byteorder.specs.Endian.{big_bytes};
ghost use Rattle.ipfix_wire.specs.SetHeader.{set_octets};
ghost use Rattle.ipfix_message.specs.Domains.{message_header};
ghost use Rattle.ipfix_message.specs.WrittenTemplates.{set_id_of};
ghost use Rattle.ipfix_datagrams.specs.Entries.{Gains};
ghost use Rattle.ipfix_datagrams.specs.Withdrawals.{kind_withdrawn, withdrawal_header, withdrawal_message, withdrawal_record, withdrawal_sets};
ghost use Rattle.ipfix_datagrams.specs.declared.withdrawal.TheConstants.{MOST_WITHDRAWN};

use crate::withdrawn_template::WithdrawnTemplate;
use byteorder::{BigEndian, ByteOrder};
use ipfix_wire::{
    HEADER_LENGTH, Header, OPTIONS_TEMPLATE_SET_ID, SET_HEADER_LENGTH, TEMPLATE_SET_ID,
    write_header, write_set,
};
use std::alloc::AllocError;

// Octets of a template record without fields.
const RECORD_LENGTH: usize = 4;

// Octets of a set of this record alone.
const SET_LENGTH: usize = SET_HEADER_LENGTH + RECORD_LENGTH;

/// How many templates a message withdraws at most: it has at most 65,535 octets.
pub const MOST_WITHDRAWN: usize = 8189;

// The id of the sets that bring templates of its kind.
fn set_id(template: WithdrawnTemplate) -> u16
    ensures { result ≡ set_id_of (kind_withdrawn template) }
{
    if template.is_options {
        OPTIONS_TEMPLATE_SET_ID
    } else {
        TEMPLATE_SET_ID
    }
}

// Appends a template record without fields.
fn append_record(id: u16, out: &mut Vec<u8>) -> Result<(), AllocError>
    ensures { OnOk result (Gains out.old out.new (withdrawal_record id)) }
{
    let mut octets = [0; 2];
    BigEndian::write_u16(&mut octets, id);
    out.extend_from_slice(&octets)?;
    BigEndian::write_u16(&mut octets, 0);
    out.extend_from_slice(&octets)
}

// Appends a set of this record alone.
fn append_set(set_id: u16, id: u16, out: &mut Vec<u8>) -> Result<(), AllocError>
    ensures { OnOk result (Gains out.old out.new (set_octets set_id 4 ++ withdrawal_record id)) }
{
    write_set(set_id, RECORD_LENGTH as u16, out)?;
    append_record(id, out)
}

// Appends a set for each template.
fn append_sets(templates: &[WithdrawnTemplate], out: &mut Vec<u8>) -> Result<(), AllocError>
    ensures { OnOk result (Gains out.old out.new (withdrawal_sets templates.now)) }
{
    for template in templates {
        append_set(set_id(*template), template.id, out)?;
    }
    Ok(())
}

/// Appends a message that withdraws templates, in the domain of a header, with its export time and its
/// sequence number. Out of memory, the first octets may have been appended.
pub fn append_withdrawals(
    header: &Header,
    templates: &[WithdrawnTemplate],
    out: &mut Vec<u8>,
) -> Result<(), AllocError>
    requires { length templates.now ≤ MOST_WITHDRAWN }
    ensures octets { OnOk result (Gains out.old out.new (withdrawal_message header.now templates.now)) }
    ensures header { OnOk result (message_header (withdrawal_message header.now templates.now)
        ≡ Ok (withdrawal_header header.now templates.now)) }
{
    let header = Header {
        length: (HEADER_LENGTH + templates.len() * SET_LENGTH) as u16,
        export_time: header.export_time,
        sequence: header.sequence,
        domain: header.domain,
    };
    write_header(&header, out)?;
    append_sets(templates, out)
}
