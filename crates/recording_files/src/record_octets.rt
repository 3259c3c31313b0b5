//! A data record as octets again (RFC 7011, sections 3.4.3 and 7).

ghost use Rattle.std.specs.Prelude.{IfOk};
ghost use Rattle.recording_files.specs.RecordOctets.{Appended, record_octets, value_octets};

use ipfix_message::Fields;
use ipfix_wire::{Spec, VARIABLE_WIDTH, write_length};
use std::alloc::AllocError;

// Appends the octets of a field of this width, and answers whether it has that width. Before a field of variable length
// stands its length. If the answer is `false` nothing was appended.
fn append_value(width: u16, octets: &[u8], out: &mut Vec<u8>) -> Result<bool, AllocError>
    ensures { IfOk result (Appended (value_octets width octets.now) out.old.items out.new.items) }
{
    if width != VARIABLE_WIDTH {
        if octets.len() != usize::from(width) {
            return Ok(false);
        }
        out.extend_from_slice(octets)?;
        return Ok(true);
    }
    if octets.len() > usize::from(u16::MAX) {
        return Ok(false);
    }
    write_length(octets.len() as u16, out)?;
    out.extend_from_slice(octets)?;
    Ok(true)
}

/// Appends the octets of a record of these specifiers that has these fields, each length in its shortest form, and answers
/// whether it is one: it has a field for each specifier, of its element and its width. If the answer is `false`, or an error,
/// the first octets may have been appended.
pub fn append_record(specs: &[Spec], fields: &Fields, out: &mut Vec<u8>) -> Result<bool, AllocError>
    ensures { IfOk result
        (Appended (record_octets specs.now fields.now) out.old.items out.new.items) }
{
    let mut left = specs;
    for field in fields.iter() {
        let Some((spec, others)) = left.split_first() else {
            return Ok(false);
        };
        if field.element != spec.element {
            return Ok(false);
        }
        if !append_value(spec.width, field.octets, out)? {
            return Ok(false);
        }
        left = others;
    }
    Ok(left.is_empty())
}
