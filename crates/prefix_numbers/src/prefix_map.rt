//! The number of an address.

ghost use Rattle.std.specs.Prelude.{◌≡◌, ◌^◌, nat_lt, All, IfOk};
ghost use Rattle.std.specs.List.{take_while};
ghost use Rattle.std.specs.List.Sorted.{IsNonDecreasing};
ghost use Rattle.prefix_numbers.specs.Spans.{HasZeros};
ghost use Rattle.prefix_numbers.specs.Steps as steps_of;

use crate::flattening::flatten;
use crate::guide::Guide;
use crate::ipv4::ipv4_steps;
use crate::ipv6::{LEFT_OUT, ipv6_steps};
use crate::row::NumberedPrefix;
use network_prefixes::AddressBits;
use std::alloc::{AllocError, Global};

/// Numbers of addresses, by steps: from each start on, up to the next one, addresses of a family have one
/// number, and before the first one they have 0. Guides say where an address is looked up first.
#[derive(Debug, Drop)]
pub struct PrefixMap {
    ipv4_starts: Vec<u32>,
    ipv4_numbers: Vec<u32>,
    ipv4_guide: Guide,
    ipv6_starts: Vec<u128>,
    ipv6_numbers: Vec<u32>,
    ipv6_guide: Guide,
    ghost ipv4_ascending: { IsNonDecreasing ipv4_starts.items },
    ghost ipv6_ascending: { IsNonDecreasing ipv6_starts.items },
}

impl PrefixMap {
    ghost use Rattle.prefix_numbers.specs.Maps.{number_of as number_of_address, IsMapOfRows};

    /// The number of the longest prefix that has an address, 0 if none has it. An IPv4-mapped IPv6 address
    /// is looked up by the bits of the IPv4 address in it.
    #[tactic(auto, unfolding(crate::specs::Maps::number_of))]
    pub fn number_of(&self, address: AddressBits) -> u32
        ensures { result ≡ number_of_address self.now address }
    {
        if address.width == 32 {
            match u32::try_from(address.bits) {
                Ok(bits) => {
                    let steps = ipv4_steps(&self.ipv4_guide, &self.ipv4_starts, bits);
                    number_after(&self.ipv4_numbers, steps)
                }
                Err(_) => 0,
            }
        } else {
            let steps = ipv6_steps(&self.ipv6_guide, &self.ipv6_starts, address.bits);
            number_after(&self.ipv6_numbers, steps)
        }
    }

    /// The map of rows.
    pub(crate) fn of_rows(
        alloc: Global,
        mut rows: Vec<NumberedPrefix>,
    ) -> Result<PrefixMap, AllocError>
        requires { All HasZeros rows.items }
        ensures { IfOk result (IsMapOfRows rows.items) }
    {
        rows.sort_unstable_by_key(|row| row.prefix.length);
        let ipv4 = flatten(alloc, &rows, 32)?;
        let ipv6 = flatten(alloc, &rows, 128)?;
        let ipv4_starts = ipv4_starts_of(alloc, &ipv4.starts)?;
        let ipv4_guide = Guide::of(alloc, &ipv4.starts, 0)?;
        let ipv6_guide = Guide::of(alloc, &ipv6.starts, LEFT_OUT)?;
        Ok(PrefixMap {
            ipv4_starts,
            ipv4_numbers: ipv4.numbers,
            ipv4_guide,
            ipv6_starts: ipv6.starts,
            ipv6_numbers: ipv6.numbers,
            ipv6_guide,
        })
    }
}

// The number of the last of so many steps, 0 before the first.
fn number_after(numbers: &[u32], steps: usize) -> u32
    ensures { result ≡ steps_of.number_after numbers.now steps }
{
    if steps == 0 {
        0
    } else {
        numbers.get(steps - 1).copied().unwrap_or(0)
    }
}

// The starts that are addresses of IPv4.
fn ipv4_starts_of(alloc: Global, mut starts: &[u128]) -> Result<Vec<u32>, AllocError>
    ensures { IfOk result (λ found. found.items
        ≡ take_while (λ start. nat_lt start (2 ^ 32)) starts.entry.now) }
{
    let mut found = Vec::new(alloc);
    while let [start, rest @ ..] = starts {
        let Ok(start) = u32::try_from(*start) else {
            return Ok(found);
        };
        found.push(start)?;
        starts = rest;
    }
    Ok(found)
}
