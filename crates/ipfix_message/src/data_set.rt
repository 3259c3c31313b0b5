//! The records of a data set (RFC 7011, sections 3.4.3 and 7).

ghost use Rattle.std.specs.Prelude.{◌≤◌, length};
ghost use Rattle.ipfix_message.specs.declared.template_record.TheConstants.{LONGEST_BODY};
ghost use Rattle.ipfix_message.specs.Outcome.{Gives};
ghost use Rattle.ipfix_message.specs.Held.{extended};

use crate::fault::MessageFault;
use crate::field_block::Fields;
use crate::record::DataRecord;
use crate::set_body::SetBody;
use crate::template_in_force::TemplateInForce;
use ipfix_wire::Header;
use std::alloc::Global;
use std::sync::Arc;

/// Appends the records of a data set's body, which share one copy of it. After an `Err` what was
/// appended is of no use.
pub fn take_records(
    alloc: Global,
    header: &Header,
    known: &TemplateInForce,
    body: &[u8],
    out: &mut Vec<DataRecord>,
) -> Result<(), MessageFault>
    requires { length body.now ≤ LONGEST_BODY }
    ensures { Gives (λ _. out.new.items) result
        (extended out.old.items header.now known.now body.now) }
{
    let template = known.template();
    let laid_out = known.laid_out();
    let least = known.least();
    let shared = known.share()?;
    let set = SetBody::copy(alloc, shared, body)?;
    out.reserve(body.len() / least)?;
    let mut rest = body;
    while rest.len() >= least {
        let after = laid_out.after_record(rest)?;
        let start = (body.len() - rest.len()) as u32;
        let set_of_record = Arc::try_clone(&set)?;
        out.push(DataRecord {
            domain: header.domain,
            export_time: header.export_time,
            template: template.id,
            scope: template.scope,
            fields: Fields::in_set(alloc, set_of_record, start),
        })?;
        rest = after;
    }
    Ok(())
}
