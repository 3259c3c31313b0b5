//! The preamble of a domain in a file: its templates, written again (RFC 7011, sections 3.1, 3.4.1 and
//! 3.4.2).

ghost use Rattle.std.specs.Prelude.{◌≡◌, ◌++◌, [], All, OnOk};
ghost use Rattle.std.specs.BTreeMap.{values, IsOrdered};
ghost use Rattle.std.specs.Ordering.{nat_cmp};
ghost use Rattle.ipfix_message.specs.WrittenTemplates.{IsTemplate};
ghost use Rattle.ipfix_session.specs.Given.{octets_of};
ghost use Rattle.recording_files.specs.Preambles.{preamble, templates_message};

use ipfix_message::{Stamp, Templates, append_template_message};
use ipfix_wire::{HEADER_LENGTH, Header, write_header};
use std::alloc::AllocError;

/// Appends a message without sets.
pub fn append_bare_message(stamp: Stamp, out: &mut Vec<u8>) -> Result<(), AllocError>
    ensures { OnOk result (out.new.items ≡ out.old.items ++ templates_message stamp []) }
{
    let header = Header {
        length: HEADER_LENGTH as u16,
        export_time: stamp.export_time,
        sequence: stamp.sequence,
        domain: stamp.domain,
    };
    write_header(&header, out)
}

/// Appends a preamble: a message without sets, and one for each template. What stood in `body` before is
/// gone. Out of memory, the first octets may have been appended.
pub fn append_preamble(
    stamp: Stamp,
    templates: &Templates,
    body: &mut Vec<u8>,
    out: &mut Vec<u8>,
) -> Result<(), AllocError>
    // The templates stand in the order of their ids, and each can be written.
    ensures ordered { OnOk result (IsOrdered nat_cmp templates.now) }
    ensures writable { OnOk result (All IsTemplate (values templates.now)) }
    ensures octets { OnOk result (out.new.items
        ≡ out.old.items ++ octets_of (preamble stamp (values templates.now))) }
{
    append_bare_message(stamp, out)?;
    for known in templates.values() {
        append_template_message(stamp, known.to_write(), body, out)?;
    }
    Ok(())
}
