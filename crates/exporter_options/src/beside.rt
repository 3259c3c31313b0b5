//! What options records told before a record, as fields.

ghost use Rattle.std.specs.Prelude.{◌≡◌, ◌||◌, ◌++◌, IfOk, OnOk};
ghost use Rattle.std.specs.Int.{w32, w64, to_be_bytes};
ghost use Rattle.exporter_options.specs.Beside as told;
ghost use Rattle.exporter_options.specs.Known.{sampling_beside};

use crate::exporter_options::ExporterOptions;
use crate::sampling::{Rate, Sampling, selector_in};
use ipfix_message::{DataRecord, Fields};
use ipfix_wire::ElementId;
use std::alloc::{AllocError, Global};

/// Number of the element of a rate: no template can name it, since the numbers of elements have 15 bits there (RFC
/// 7011, section 3.2).
pub const SAMPLING_RATE_NUMBER: u16 = u16::MAX;

/// The rate at which packets were sampled: in 4 octets how many are selected, in 8 of how many. No exporter can send
/// this element, since no template can name it.
pub const SAMPLING_RATE: ElementId = ElementId {
    pen: 0,
    number: SAMPLING_RATE_NUMBER,
};

/// Number of systemInitTimeMilliseconds.
pub const INIT_TIME_NUMBER: u16 = 160;

/// What is wanted of what options records tell.
#[derive(Clone, Copy, Debug, PartialEq, Eq)]
pub struct Wanted {
    /// systemInitTimeMilliseconds (160).
    pub init_time: bool,
    /// [`SAMPLING_RATE`].
    pub sampling: bool,
}

/// Nothing.
pub const NOTHING_WANTED: Wanted = Wanted {
    init_time: false,
    sampling: false,
};

impl Wanted {
    /// Whether any of it is.
    pub fn is_any(&self) -> bool
        ensures { result ≡ (self.now.init_time || self.now.sampling) }
    {
        self.init_time || self.sampling
    }
}

/// What is known beside a record, as far as it is wanted.
#[derive(Clone, Copy, Debug, PartialEq, Eq)]
pub struct Beside {
    /// When the exporter was started, in milliseconds since 1970-01-01 UTC.
    pub init_time: Option<u64>,
    /// At which rate packets are sampled.
    pub rate: Option<Rate>,
}

/// Nothing.
pub const NOTHING_BESIDE: Beside = Beside {
    init_time: None,
    rate: None,
};

/// A rate, if what was told is one.
pub fn rate_in(sampling: Option<Sampling>) -> Option<Rate>
    ensures { result ≡ told.rate_in sampling }
{
    match sampling? {
        Sampling::At(rate) => Some(rate),
        Sampling::Unusable => None,
    }
}

/// What is known beside a record.
pub fn known_beside(wanted: Wanted, known: &ExporterOptions, item: &DataRecord) -> Beside
    ensures { result ≡ told.known_beside wanted known.now item.now }
{
    let init_time = if wanted.init_time {
        known.init_time(item.domain)
    } else {
        None
    };
    let rate = if wanted.sampling {
        rate_beside(known, item)
    } else {
        None
    };
    Beside { init_time, rate }
}

// The rate of a record's domain and selector. The selector is only looked for if a rate was told.
fn rate_beside(known: &ExporterOptions, item: &DataRecord) -> Option<Rate>
    ensures { result ≡ told.rate_in (sampling_beside known.now item.now) }
{
    if !known.has_samplings() {
        return None;
    }
    rate_in(known.sampling(item.domain, selector_in(&item.fields)))
}

// Appends the field of a time.
fn append_init_time(time: Option<u64>, fields: &mut Fields) -> Result<(), AllocError>
    ensures { OnOk result (fields.new ≡ fields.old ++ told.init_time_fields time) }
{
    if let Some(time) = time {
        fields.push(ElementId::iana(INIT_TIME_NUMBER), &time.to_be_bytes())?;
    }
    Ok(())
}

// The octets of a rate.
fn rate_octets(rate: Rate) -> [u8; 12]
    ensures { result ≡ to_be_bytes w32 rate.selected ++ to_be_bytes w64 rate.population }
{
    let [a, b, c, d] = rate.selected.to_be_bytes();
    let [e, f, g, h, i, j, k, l] = rate.population.to_be_bytes();
    [a, b, c, d, e, f, g, h, i, j, k, l]
}

// Appends the field of a rate.
fn append_rate(rate: Option<Rate>, fields: &mut Fields) -> Result<(), AllocError>
    ensures { OnOk result (fields.new ≡ fields.old ++ told.rate_fields rate) }
{
    if let Some(rate) = rate {
        fields.push(SAMPLING_RATE, &rate_octets(rate))?;
    }
    Ok(())
}

/// The fields of what is known beside a record.
pub fn fields_of(alloc: Global, beside: Beside) -> Result<Fields, AllocError>
    ensures { IfOk result (λ f. f ≡ told.fields_beside beside) }
{
    let mut fields = Fields::new(alloc);
    append_init_time(beside.init_time, &mut fields)?;
    append_rate(beside.rate, &mut fields)?;
    Ok(fields)
}
