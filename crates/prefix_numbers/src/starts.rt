//! The addresses at which numbers may change.

ghost use Rattle.std.specs.Prelude.{◌<◌, ◌^◌, All, IfOk};
ghost use Rattle.std.specs.List.Sorted.{IsNonDecreasing};
ghost use Rattle.std.specs.Option.{SomeIff};
ghost use Rattle.prefix_numbers.specs.Spans.{end_of, AddsEnds, HasEndsOf};

use crate::row::NumberedPrefix;
use network_prefixes::Prefix;
use std::alloc::{AllocError, Global};

/// The first address of each prefix of a family, and the one after its last, ascending.
pub fn starts_of(alloc: Global, rows: &[NumberedPrefix], width: u8) -> Result<Vec<u128>, AllocError>
    ensures ascending { IfOk result (λ starts. IsNonDecreasing starts.items) }
    ensures ends { IfOk result (λ starts. All (HasEndsOf width starts.items) rows.now) }
{
    let mut starts = ends_of(alloc, rows, width)?;
    starts.sort_unstable();
    starts.dedup();
    Ok(starts)
}

// Both ends of each prefix of a family.
fn ends_of(alloc: Global, rows: &[NumberedPrefix], width: u8) -> Result<Vec<u128>, AllocError>
    ensures { IfOk result (λ ends. All (HasEndsOf width ends.items) rows.now) }
{
    let mut ends = Vec::new(alloc);
    for row in rows {
        if row.prefix.address.width == width {
            push_ends(&row.prefix, &mut ends)?;
        }
    }
    Ok(ends)
}

fn push_ends(prefix: &Prefix, ends: &mut Vec<u128>) -> Result<(), AllocError>
    ensures { AddsEnds prefix.now ends.old.items ends.new.items result }
{
    ends.push(prefix.address.bits)?;
    if let Some(after) = after(prefix) {
        ends.push(after)?;
    }
    Ok(())
}

/// The number after the last address of a prefix, if it has 128 bits.
pub fn after(prefix: &Prefix) -> Option<u128>
    ensures { SomeIff result (end_of prefix.now < 2 ^ 128) (end_of prefix.now) }
{
    let behind = u32::from(prefix.address.width.saturating_sub(prefix.length));
    prefix.address.bits.checked_add(1u128.checked_shl(behind)?)
}
