//! Messages in which templates are written again (RFC 7011, sections 3.1, 3.4.1 and 3.4.2).

ghost use Rattle.std.specs.Prelude.{◌≡◌, ◌++◌, OnOk};
ghost use Rattle.ipfix_message.specs.WrittenTemplates.{set_id_of, kind_of, IsTemplate};
ghost use Rattle.ipfix_message.specs.TemplateMessages.{message_of_template};

use crate::record::Template;
use crate::stamp::Stamp;
use crate::written_template::append_template;
use ipfix_wire::{
    HEADER_LENGTH, Header, OPTIONS_TEMPLATE_SET_ID, SET_HEADER_LENGTH, TEMPLATE_SET_ID,
    write_header, write_set,
};
use std::alloc::AllocError;

// The id of the sets that bring templates of a template's kind.
fn set_id(template: &Template) -> u16
    ensures { result ≡ set_id_of (kind_of template.now) }
{
    if template.scope == 0 {
        TEMPLATE_SET_ID
    } else {
        OPTIONS_TEMPLATE_SET_ID
    }
}

/// Appends a message of one template. What stood in `body` before is gone. Out of memory, the first octets
/// may have been appended.
pub fn append_template_message(
    stamp: Stamp,
    template: &Template,
    body: &mut Vec<u8>,
    out: &mut Vec<u8>,
) -> Result<(), AllocError>
    requires { IsTemplate template.now }
    ensures { OnOk result
        (out.new.items ≡ out.old.items ++ message_of_template stamp template.now) }
{
    body.clear();
    append_template(template, body)?;
    let length = body.len();
    let header = Header {
        length: (HEADER_LENGTH + SET_HEADER_LENGTH + length) as u16,
        export_time: stamp.export_time,
        sequence: stamp.sequence,
        domain: stamp.domain,
    };
    write_header(&header, out)?;
    write_set(set_id(template), length as u16, out)?;
    out.extend_from_slice(body.as_slice())
}
