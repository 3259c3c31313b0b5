//! The fields that a session appends to its records, made once for all records of a domain.

ghost use Rattle.std.specs.Prelude.{◌≡◌, None, IfOk, OnErr, OnOk};
ghost use Rattle.flow_collect.specs.Contexts.{context_fields, with_context, with_session};

use crate::session_context::SessionContext;
use flow_estimates::append_estimates;
use flow_maps::append_numbers;
use ipfix_message::{DataRecord, SharedFields};
use std::alloc::{AllocError, Global};
use std::marker::Model;

/// What a session knows beside its records, and the fields that say so of the domain of its latest record.
/// Contracts see what it knows.
#[derive(Drop)]
pub struct ContextFields<'a> {
    alloc: Global,
    context: SessionContext<'a>,
    domain: u32,
    fields: SharedFields,
}

impl<'a> Model for ContextFields<'a> {
    ghost use Rattle.std.specs.Prelude.{◌≡◌};
    ghost use Rattle.flow_collect.specs.Contexts.{context_fields};
    ghost use Rattle.flow_collect.specs.declared.session_context.SessionContext.{SessionContext};

    ghost Value = { SessionContext };

    ghost view = { λ f. f.context };

    ghost invariant = { λ f. f.fields ≡ context_fields f.context f.domain };
}

// What the session knows of the records of a domain. (By itself: what is called for each record clears no room for
// it.)
#[inline(never)]
fn shared_fields(
    alloc: Global,
    context: &SessionContext<'_>,
    domain: u32,
) -> Result<SharedFields, AllocError>
    ensures { IfOk result (λ fields. fields ≡ context_fields context.now domain) }
{
    context.fields(alloc, domain)?.to_shared()
}

impl<'a> ContextFields<'a> {
    /// Those of a session with this context.
    pub fn new(alloc: Global, context: SessionContext<'a>) -> Result<Self, AllocError>
        ensures { IfOk result (λ f. f ≡ context.entry) }
    {
        let domain = 0;
        let fields = shared_fields(alloc, &context, domain)?;
        Ok(ContextFields {
            alloc,
            context,
            domain,
            fields,
        })
    }

    /// Appends them to a record, then the numbers of its maps, and then the estimates of its counters. At an `Err` the
    /// record is as it was if there are no maps and no estimates.
    pub fn append(&mut self, item: &mut DataRecord) -> Result<(), AllocError>
        ensures kept { self.new ≡ self.old }
        ensures ok { OnOk result (item.new ≡ with_context self.old item.old) }
        ensures err { self.old.maps ≡ None → self.old.estimates ≡ None
            → OnErr result (item.new ≡ item.old) }
    {
        self.append_session(item)?;
        append_numbers(self.alloc, self.context.maps, &mut item.fields)?;
        append_estimates(self.alloc, self.context.estimates, &mut item.fields)
    }

    // Appends what the session knows.
    fn append_session(&mut self, item: &mut DataRecord) -> Result<(), AllocError>
        ensures kept { self.new ≡ self.old }
        ensures ok { OnOk result (item.new ≡ with_session self.old item.old) }
        ensures err { OnErr result (item.new ≡ item.old) }
    {
        if self.domain == item.domain {
            return item.fields.extend_shared(&mut self.fields);
        }
        self.fields = shared_fields(self.alloc, &self.context, item.domain)?;
        self.domain = item.domain;
        item.fields.extend_shared(&mut self.fields)
    }
}
