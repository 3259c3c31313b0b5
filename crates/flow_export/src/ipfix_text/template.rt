//! The template of the rows (RFC 7011, section 3.4.1).

ghost use Rattle.std.specs.Prelude.{◌≡◌, ◌+◌, ◌++◌, ◌≤◌, All, length, zip, OnOk};
ghost use Rattle.flow_table.specs.Plans.{exported_element};
ghost use Rattle.flow_export.specs.Fitting.{HasNumber};
ghost use Rattle.flow_export.specs.SpecOctets.{counter_octets, counters_octets, ids_octets, keys_octets, octets_of_template};

use crate::ipfix_text::widths::{NUMBER_WIDTH, width_of};
use byteorder::{BigEndian, ByteOrder};
use flow_table::{Key, Plan};
use ipfix_elements::{Kind, iana};
use ipfix_wire::{ElementId, FIRST_TEMPLATE_ID, Spec, write_spec};
use std::alloc::AllocError;

/// Appends the template record of a plan's rows: the first and the last millisecond of the interval,
/// the keys, the counters and the number of flows.
pub fn append_template(plan: &Plan, out: &mut Vec<u8>) -> Result<(), AllocError>
    ensures octets { OnOk result (out.new.items ≡ out.old.items ++ octets_of_template plan.now) }
    ensures short { OnOk result (length out.new.items ≤ length out.old.items + 124) }
{
    let keys = plan.keys();
    let counters = plan.counters();
    append_ids((3 + keys.len() + counters.len()) as u16, out)?;
    append_number_spec(ElementId::iana(iana::FLOW_START_MILLISECONDS), out)?;
    append_number_spec(ElementId::iana(iana::FLOW_END_MILLISECONDS), out)?;
    append_key_specs(keys, plan.kinds(), out)?;
    append_counter_specs(counters, out)?;
    append_number_spec(ElementId::iana(iana::ORIGINAL_FLOWS_PRESENT), out)?;
    Ok(())
}

// Appends the id of the template and the number of its fields.
fn append_ids(fields: u16, out: &mut Vec<u8>) -> Result<(), AllocError>
    ensures { OnOk result (out.new.items ≡ out.old.items ++ ids_octets fields) }
{
    let mut octets = [0; 4];
    BigEndian::write_u16(&mut octets, FIRST_TEMPLATE_ID);
    BigEndian::write_u16(&mut octets[2..], fields);
    out.extend_from_slice(&octets)
}

// Appends the specifiers of keys: a prefix has an element of its own.
fn append_key_specs(keys: &[Key], kinds: &[Kind], out: &mut Vec<u8>) -> Result<(), AllocError>
    requires beside { length kinds.now ≡ length keys.now }
    requires numbers { All (λ key. HasNumber (exported_element key)) keys.now }
    ensures { OnOk result (out.new.items
        ≡ out.old.items ++ keys_octets (zip keys.now kinds.now)) }
{
    for (key, kind) in keys.iter().zip(kinds) {
        let spec = Spec {
            element: key.exported_element(),
            width: width_of(*kind),
        };
        write_spec(&spec, out)?;
    }
    Ok(())
}

fn append_counter_specs(counters: &[ElementId], out: &mut Vec<u8>) -> Result<(), AllocError>
    requires { All HasNumber counters.now }
    ensures { OnOk result (out.new.items ≡ out.old.items ++ counters_octets counters.now) }
{
    for counter in counters {
        append_number_spec(*counter, out)?;
    }
    Ok(())
}

// Appends the specifier of a number in 64 bits.
fn append_number_spec(element: ElementId, out: &mut Vec<u8>) -> Result<(), AllocError>
    requires { HasNumber element }
    ensures { OnOk result (out.new.items ≡ out.old.items ++ counter_octets element) }
{
    let spec = Spec {
        element,
        width: NUMBER_WIDTH,
    };
    write_spec(&spec, out)
}
