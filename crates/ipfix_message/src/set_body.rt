//! The body of a data set, which its records share (RFC 7011, section 3.4.3).

ghost use Rattle.std.specs.Prelude.{◌≡◌, IfOk, option_copied};
ghost use Rattle.std.specs.Arc.{arc_value};
ghost use Rattle.ipfix_message.specs.Fields.{octets_of};
ghost use Rattle.ipfix_message.specs.SetRecords.{specs_of, fields_from, HasRecordAt};

use crate::apart::{APART, Apart};
use crate::field_run::FieldRun;
use crate::laid_out::LaidOut;
use ipfix_wire::ElementId;
use std::alloc::{AllocError, Global};
use std::sync::Arc;

/// The octets of the body of a data set, and the template of its records.
#[derive(Debug, Drop)]
pub struct SetBody {
    apart: Apart,
    template: Arc<LaidOut, Global>,
    octets: Vec<u8>,
}

impl SetBody {
    /// A copy of a body, to be shared by its records.
    pub fn copy(
        alloc: Global,
        template: Arc<LaidOut, Global>,
        body: &[u8],
    ) -> Result<Arc<SetBody, Global>, AllocError>
        ensures specs { IfOk result (λ set. specs_of (arc_value set) ≡ (arc_value template).specs) }
        ensures octets { IfOk result (λ set. (arc_value set).octets.items ≡ body.now) }
    {
        let octets = Vec::from_slice(alloc, body)?;
        let apart = APART;
        Ok(Arc::new(
            alloc,
            SetBody {
                apart,
                template,
                octets,
            },
        )?)
    }

    /// The fields of the record that begins at an octet, in order.
    pub fn fields_at(&self, start: u32) -> FieldRun<'_>
        requires { HasRecordAt self.now start }
        ensures { result ≡ fields_from self.now start }
    {
        let template = self.template.template();
        FieldRun::new(template.specs.as_slice(), &self.octets[start as usize..])
    }

    /// The octets of the first field of an element in the record that begins at an octet.
    #[inline(always)]
    pub fn find_at(&self, start: u32, element: ElementId) -> Option<&[u8]>
        requires { HasRecordAt self.now start }
        ensures { option_copied result ≡ octets_of element (fields_from self.now start) }
    {
        self.template.find(element, &self.octets[start as usize..])
    }
}
