//! The rate that a record's fields say.

ghost use Rattle.std.specs.Prelude.{◌≡◌};
ghost use Rattle.exporter_options.specs.RateFields as rates;

use crate::beside::SAMPLING_RATE;
use crate::fields::read_unsigned;
use crate::sampling::Rate;
use ipfix_elements::{Kind, Width, read_number};
use ipfix_message::Fields;

/// How many octets a rate has.
const RATE_OCTETS: usize = 12;

/// The rate in the first field of [`SAMPLING_RATE`], if there is one.
pub fn rate_of(fields: &Fields) -> Option<Rate>
    ensures { result ≡ rates.rate_of fields.now }
{
    rate_of_octets(fields.find(SAMPLING_RATE)?)
}

// In 4 octets how many packets are selected, in 8 of how many.
fn rate_of_octets(octets: &[u8]) -> Option<Rate>
    ensures { result ≡ rates.rate_of_octets octets.now }
{
    if octets.len() != RATE_OCTETS {
        return None;
    }
    let selected = read_unsigned(&octets[..4])?;
    let population = read_number(Kind::Unsigned(Width::Eight), &octets[4..])?;
    Some(Rate {
        selected,
        population,
    })
}
