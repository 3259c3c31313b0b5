//! Prefixes as steps, from the shortest to the longest.

ghost use Rattle.std.specs.Prelude.{◌≡◌, ◌≤◌, All, IfOk, length};
ghost use Rattle.std.specs.List.Sorted.{IsNonDecreasing, IsNonDecreasingBy};
ghost use Rattle.prefix_numbers.specs.Flat.{AreNumbers, IsFlat};
ghost use Rattle.prefix_numbers.specs.Spans.{HasEndsOf, HasZeros};

use crate::painting::paint;
use crate::row::NumberedPrefix;
use crate::starts::starts_of;
use std::alloc::{AllocError, Global};

/// Steps of addresses of a family: from each start on, up to the next one, addresses have its number, and
/// before the first one they have 0.
#[derive(Drop)]
pub struct Steps {
    pub starts: Vec<u128>,
    pub numbers: Vec<u32>,
}

/// The steps of the rows of a family, which are in the order of the lengths of their prefixes.
pub fn flatten(alloc: Global, rows: &[NumberedPrefix], width: u8) -> Result<Steps, AllocError>
    requires ascending { IsNonDecreasingBy (λ row. row.prefix.length) rows.now }
    requires zeros { All HasZeros rows.now }
    ensures ascending { IfOk result (λ steps. IsNonDecreasing steps.starts.items) }
    ensures flat { IfOk result (IsFlat rows.now width) }
{
    let starts = starts_of(alloc, rows, width)?;
    let numbers = numbers_of(alloc, rows, width, &starts)?;
    Ok(Steps { starts, numbers })
}

// The number of each start.
fn numbers_of(
    alloc: Global,
    rows: &[NumberedPrefix],
    width: u8,
    starts: &[u128],
) -> Result<Vec<u32>, AllocError>
    requires ascending { IsNonDecreasingBy (λ row. row.prefix.length) rows.now }
    requires zeros { All HasZeros rows.now }
    requires starts { IsNonDecreasing starts.now }
    ensures { IfOk result (λ numbers. AreNumbers rows.now width starts.now numbers.items) }
{
    let mut numbers = vec![in alloc; 0; starts.len()]?;
    for row in rows {
        if row.prefix.address.width == width {
            paint(starts, &mut numbers, row);
        }
    }
    Ok(numbers)
}
