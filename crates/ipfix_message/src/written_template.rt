//! Templates written again (RFC 7011, sections 3.4.1 and 3.4.2).

ghost use Rattle.std.specs.Prelude.{◌≡◌, ◌++◌, All, flat_map, OnOk};
ghost use Rattle.byteorder.specs.Endian.{big_bytes};
ghost use Rattle.ipfix_wire.specs.FieldSpecifier.{spec_octets};
ghost use Rattle.ipfix_message.specs.WrittenTemplates.{IsSpec, IsTemplate, kind_of, template_octets};
ghost use Rattle.ipfix_message.specs.TemplateRecords.{SpellsTemplate};

use crate::record::Template;
use byteorder::{BigEndian, ByteOrder};
use ipfix_wire::{Spec, write_spec};
use std::alloc::AllocError;

// Appends a number of 16 bits.
fn append_u16(number: u16, out: &mut Vec<u8>) -> Result<(), AllocError>
    ensures { OnOk result (out.new.items ≡ out.old.items ++ big_bytes 2 number) }
{
    let mut octets = [0; 2];
    BigEndian::write_u16(&mut octets, number);
    out.extend_from_slice(&octets)
}

// Appends field specifiers in turn.
fn append_specs(specs: &[Spec], out: &mut Vec<u8>) -> Result<(), AllocError>
    requires { All IsSpec specs.now }
    ensures { OnOk result (out.new.items ≡ out.old.items ++ flat_map spec_octets specs.now) }
{
    for spec in specs {
        write_spec(spec, out)?;
    }
    Ok(())
}

/// Appends the template record of a template: an options template record where it has scope fields. A
/// template that is in force can be written ([`TemplateInForce::to_write`](crate::TemplateInForce)).
/// Out of memory, the first octets of the record may have been appended.
#[tactic(auto, unfolding(crate::specs::WrittenTemplates::template_octets), using(crate::proofs::WritableTemplates::template_spelled))]
pub fn append_template(template: &Template, out: &mut Vec<u8>) -> Result<(), AllocError>
    requires { IsTemplate template.now }
    ensures ok { OnOk result (out.new.items ≡ out.old.items ++ template_octets template.now) }
    ensures spells { SpellsTemplate (kind_of template.now) template.now
        (template_octets template.now) }
{
    append_u16(template.id, out)?;
    append_u16(template.specs.len() as u16, out)?;
    if template.scope != 0 {
        append_u16(template.scope, out)?;
    }
    append_specs(template.specs.as_slice(), out)
}
