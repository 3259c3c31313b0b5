//! Prefixes of addresses (RFC 4632, section 3.1; RFC 4291, section 2.3).

ghost use Rattle.std.specs.Prelude.{◌≡◌, ◌≢◌, ◌<◌, ◌↔◌, ℕ, Err, IsTrue, decimal};
ghost use Rattle.std.specs.Option.{MatchOption};
ghost use Rattle.std.specs.Net.Grammar.{Parses};
ghost use Rattle.network_prefixes.specs.Prefixes.{Covers, HasBitsAfter, IsAddressText, IsPrefixSpelled, IsPrefixWord, IsWholeAddress, IsWordWithBitsAfter};

use crate::address_bits::AddressBits;
use itoa::Buffer;
use std::net::IpAddr;
use thiserror::Error;

/// Why a word is no prefix.
#[derive(Clone, Copy, Debug, PartialEq, Eq, Error)]
pub enum PrefixFault {
    /// It is no address, and no address with a number of bits that it has.
    #[error("no address and no prefix")]
    NotAPrefix,
    /// Of the bits of the address not all are 0 that come after the first ones, as in 192.0.2.1/24.
    #[error("bits after the prefix")]
    BitsAfter,
}

/// The addresses whose first bits are these, so many of them.
#[derive(Clone, Copy, Debug, PartialEq, Eq)]
pub struct Prefix {
    pub address: AddressBits,
    /// How many bits, up to all of them.
    pub length: u8,
}

impl Prefix {
    /// The prefix that a word spells: only an address, or an address, a slash and a decimal number of
    /// bits, after which all bits are 0, as in 192.0.2.0/24. An IPv4-mapped IPv6 address counts as the
    /// IPv4 address in it, with its 32 bits.
    pub fn parse(word: &str) -> Result<Prefix, PrefixFault>
        ensures parsed { Parses IsPrefixWord word.now result }
        ensures bits_after { (result ≡ Err PrefixFault.BitsAfter) ↔ IsWordWithBitsAfter word.now }
    {
        match word.split_once('/') {
            None => whole_address(word),
            Some((text, length)) => cut_address(text, length),
        }
    }

    /// Whether an address is among them.
    pub fn covers(&self, address: IpAddr) -> bool
        ensures { IsTrue result ↔ Covers self.now address }
    {
        let bits = AddressBits::of(address);
        bits.width == self.address.width
            && bits.first(self.length) == self.address.first(self.length)
    }
}

// All bits of the address that a text spells.
fn whole_address(text: &str) -> Result<Prefix, PrefixFault>
    ensures parsed { Parses IsWholeAddress text.now result }
    ensures no_others { result ≢ Err PrefixFault.BitsAfter }
{
    match address_in(text) {
        Ok(address) => Ok(Prefix {
            address,
            length: address.width,
        }),
        Err(_) => Err(PrefixFault::NotAPrefix),
    }
}

// The first bits of the address that a text spells, as many as the other text says.
fn cut_address(text: &str, bits: &str) -> Result<Prefix, PrefixFault>
    ensures parsed { Parses (λ text p. IsPrefixSpelled text bits.now p) text.now result }
    ensures bits_after { (result ≡ Err PrefixFault.BitsAfter) ↔ HasBitsAfter text.now bits.now }
{
    let Ok(address) = address_in(text) else {
        return Err(PrefixFault::NotAPrefix);
    };
    let Some(length) = length_in(bits) else {
        return Err(PrefixFault::NotAPrefix);
    };
    if length > address.width {
        return Err(PrefixFault::NotAPrefix);
    }
    if !address.ends_behind(length) {
        return Err(PrefixFault::BitsAfter);
    }
    Ok(Prefix { address, length })
}

fn address_in(text: &str) -> Result<AddressBits, PrefixFault>
    ensures { Parses IsAddressText text.now result }
{
    match text.parse::<IpAddr>() {
        Ok(address) => Ok(AddressBits::of(address)),
        Err(_) => Err(PrefixFault::NotAPrefix),
    }
}

// A decimal number from 0 to 255, without a sign or leading zeros.
fn length_in(text: &str) -> Option<u8>
    ensures { MatchOption result
        ((n : ℕ) → n < 256 → text.now ≢ decimal n)
        (λ n. text.now ≡ decimal n) }
{
    match text.parse::<u8>() {
        Ok(length) if Buffer::new().format(length) == text => Some(length),
        _ => None,
    }
}
