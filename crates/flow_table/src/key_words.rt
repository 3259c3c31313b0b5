//! The words of a record's key, read from the octets of its fields.

ghost use Rattle.std.specs.Prelude.{◌≡◌, true, IfOk, length, option_map};
ghost use Rattle.std.specs.List.{AllPass};
ghost use Rattle.ipfix_elements.specs.Values.{cell_in};
ghost use Rattle.flow_table.specs.Missing.{first_without};
ghost use Rattle.flow_table.specs.Plans.{is_key_kind};
ghost use Rattle.flow_table.specs.Reading.{cell_of, projected};
ghost use Rattle.flow_table.specs.Readings.{ReadsCell, ReadsKey};

use crate::key::Key;
use crate::networks::{ipv4_network, ipv6_network};
use crate::words::{
    CellWords, ipv4_words, ipv6_words, mac_words, number_words, push_half, push_words,
};
use ipfix_elements::{Kind, read_number};
use ipfix_message::DataRecord;
use std::alloc::AllocError;

/// Leaves the words of the keys in `words`, or tells the place of the first that the record lacks.
pub fn read_key(
    keys: &[Key],
    kinds: &[Kind],
    data_record: &DataRecord,
    words: &mut Vec<u64>,
) -> Result<Option<usize>, AllocError>
    requires beside { length kinds.now ≡ length keys.now }
    requires comparable { AllPass is_key_kind kinds.now }
    ensures place { IfOk result (λ place. place ≡ first_without keys.now kinds.now data_record.now) }
    ensures words { IfOk result (ReadsKey keys.now kinds.now data_record.now words.new.items) }
{
    words.clear();
    let mut half = None;
    for place in 0..keys.len() {
        let Some(found) = read_words_of(keys[place], kinds[place], data_record) else {
            return Ok(Some(place));
        };
        half = push_words(half, found, words)?;
    }
    push_half(half, words)?;
    Ok(None)
}

// The words of a key, if the record has it.
#[tactic(auto, unfolding(crate::specs::Reading::cell_of))]
fn read_words_of(key: Key, kind: Kind, data_record: &DataRecord) -> Option<CellWords>
    requires { is_key_kind kind ≡ true }
    ensures { ReadsCell kind (cell_of key kind data_record.now) result }
{
    let octets = data_record.fields.find(key.element)?;
    words_in(kind, key.prefix, octets)
}

// The words of what octets are, by a kind of keys: of an address with its prefix alone, if there is one.
#[inline(always)]
fn words_in(kind: Kind, prefix: Option<u8>, octets: &[u8]) -> Option<CellWords>
    requires { is_key_kind kind ≡ true }
    ensures { ReadsCell kind (option_map (projected prefix) (cell_in kind octets.now)) result }
{
    match kind {
        Kind::Unsigned(_) => Some(number_words(kind, read_number(kind, octets)?)),
        Kind::Ipv4 => {
            let address = <[u8; 4]>::try_from(octets).ok()?;
            Some(ipv4_words(&ipv4_network(prefix, address)))
        }
        // A case of its own: octets that may be masked as well are compiled to be read one by one.
        Kind::Ipv6 if prefix.is_none() => Some(ipv6_words(&<[u8; 16]>::try_from(octets).ok()?)),
        Kind::Ipv6 => {
            let address = <[u8; 16]>::try_from(octets).ok()?;
            Some(ipv6_words(&ipv6_network(prefix, address)))
        }
        Kind::Mac => Some(mac_words(&<[u8; 6]>::try_from(octets).ok()?)),
        Kind::Seconds | Kind::Millis | Kind::Octets => None,
    }
}
