//! What the options records of a session told so far.

ghost use Rattle.std.specs.Prelude.{◌≡◌, OnErr, OnOk};
ghost use Rattle.exporter_options.specs.Known.{has_samplings, init_time_of, noted, nothing_known, sampling_of, with_told};

use crate::init_times::{self, InitTime};
use crate::sampling::Sampling;
use crate::samplings::{self, DomainSampling};
use crate::telling::{Told, told_by};
use ipfix_message::DataRecord;
use std::alloc::{AllocError, Global};
use std::collections::VecDeque;
use std::marker::Model;

/// Of how many domains a session keeps when the exporter was started, and of how many selectors of domains at which
/// rate they sample. Of more, what was told longest ago is forgotten.
pub const MOST_KEPT: usize = 1024;

/// What the options records of a session told so far. Contracts see what is known.
#[derive(Debug, Drop)]
pub struct ExporterOptions {
    init_times: VecDeque<InitTime>,
    samplings: VecDeque<DomainSampling>,
}

impl Model for ExporterOptions {
    ghost use Rattle.exporter_options.specs.Known.{Known};

    ghost Value = { Known };

    ghost view = { λ o. record { init_times = o.init_times.items; samplings = o.samplings.items } };
}

impl ExporterOptions {
    /// Nothing was told. This takes no memory.
    pub fn new(alloc: Global) -> Self
        ensures { result ≡ nothing_known }
    {
        ExporterOptions {
            init_times: VecDeque::new(alloc),
            samplings: VecDeque::new(alloc),
        }
    }

    /// Notes what a record tells. One that is no options record costs a look at its scope.
    pub fn note(&mut self, item: &DataRecord) -> Result<(), AllocError>
        ensures ok { OnOk result (self.new ≡ noted self.old item.now) }
        ensures err { OnErr result (self.new ≡ self.old) }
    {
        match told_by(item) {
            None => Ok(()),
            Some(told) => self.keep(told),
        }
    }

    // Keeps what was told.
    fn keep(&mut self, told: Told) -> Result<(), AllocError>
        ensures ok { OnOk result (self.new ≡ with_told (Some told) self.old) }
        ensures err { OnErr result (self.new ≡ self.old) }
    {
        self.init_times.reserve(1)?;
        self.samplings.reserve(1)?;
        if let Some(millis) = told.init_time {
            let domain = told.domain;
            init_times::keep(&mut self.init_times, InitTime { domain, millis });
        }
        if let Some(sampling) = told.sampling {
            let of_selector = DomainSampling {
                domain: told.domain,
                selector: told.selector,
                sampling,
            };
            samplings::keep(&mut self.samplings, of_selector);
        }
        Ok(())
    }

    /// When the exporter of a domain's records was started, in milliseconds since 1970-01-01 UTC: as it told last of
    /// the domain, or else of domain 0, which is the whole exporter (RFC 7011, section 3.1).
    pub fn init_time(&self, domain: u32) -> Option<u64>
        ensures { result ≡ init_time_of self.now domain }
    {
        match init_times::find_told(&self.init_times, domain) {
            Some(time) => Some(time),
            None => init_times::find_told(&self.init_times, 0),
        }
    }

    /// Whether the exporter told of any domain how it samples.
    pub fn has_samplings(&self) -> bool
        ensures { result ≡ has_samplings self.now }
    {
        !self.samplings.is_empty()
    }

    /// How packets of a domain are sampled, as the exporter told last of it, or else of domain 0: by a selector if
    /// one is given, else by whichever it told of.
    pub fn sampling(&self, domain: u32, selector: Option<u64>) -> Option<Sampling>
        ensures { result ≡ sampling_of self.now domain selector }
    {
        match samplings::find_told(&self.samplings, domain, selector) {
            Some(sampling) => Some(sampling),
            None => samplings::find_told(&self.samplings, 0, selector),
        }
    }
}
