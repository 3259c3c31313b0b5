//! The fields of what options records told, appended to each record of a session.

ghost use Rattle.std.specs.Prelude.{◌≡◌, ◌⊎◌, IfOk, OnErr, OnOk};
ghost use Rattle.exporter_options.specs.Beside.{asked_first, asked_next, with_told};
ghost use Rattle.exporter_options.specs.RateFields.{rate_of_domain};

use crate::beside::{Wanted, known_beside, rate_in};
use crate::exporter_options::ExporterOptions;
use crate::made_fields::MadeFields;
use crate::sampling::Rate;
use ipfix_message::DataRecord;
use std::alloc::{AllocError, Global};
use std::marker::Model;

/// What the options records of a session told so far, and the fields that say so beside its latest record. Contracts
/// see what is wanted of it, and what is known.
#[derive(Drop)]
pub struct ToldFields {
    alloc: Global,
    wanted: Wanted,
    known: ExporterOptions,
    made: MadeFields,
}

impl Model for ToldFields {
    ghost use Rattle.exporter_options.specs.Beside.{Asked};

    ghost Value = { Asked };

    ghost view = { λ f. record { wanted = f.wanted; known = f.known } };
}

impl ToldFields {
    /// Those of a session before its first record.
    pub fn new(alloc: Global, wanted: Wanted) -> Result<Self, AllocError>
        ensures { IfOk result (λ f. f ≡ asked_first wanted) }
    {
        Ok(ToldFields {
            alloc,
            wanted,
            known: ExporterOptions::new(alloc),
            made: MadeFields::new(alloc)?,
        })
    }

    /// Appends what was told before a record to it, and then notes what the record itself tells. If nothing is wanted
    /// nothing is looked up and noted.
    ///
    /// At an `Err` the record is as it was, and what it tells is noted or not.
    #[tactic(auto, using(crate::proofs::Wants::unwanted_told, crate::proofs::Wants::unwanted_next, crate::proofs::Wants::wanted_next))]
    pub fn append(&mut self, item: &mut DataRecord) -> Result<(), AllocError>
        ensures ok { OnOk result (item.new ≡ with_told self.old item.old) }
        ensures next { OnOk result (self.new ≡ asked_next self.old item.old) }
        ensures err { OnErr result (item.new ≡ item.old) }
        ensures left { OnErr result ((self.new ≡ self.old) ⊎ (self.new ≡ asked_next self.old item.old)) }
    {
        if !self.wanted.is_any() {
            return Ok(());
        }
        let beside = known_beside(self.wanted, &self.known, item);
        self.made.change_to(self.alloc, beside)?;
        self.known.note(item)?;
        self.made.append_to(&mut item.fields)
    }

    /// The rate that was told last of a domain, or else of domain 0: by whichever selector.
    pub fn rate_of_domain(&self, domain: u32) -> Option<Rate>
        ensures { result ≡ rate_of_domain self.now.known domain }
    {
        rate_in(self.known.sampling(domain, None))
    }
}
