//! Inputs that come twice.

ghost use Rattle.std.specs.BTreeMap.{get};
ghost use Rattle.std.specs.Cmp.Lexicographic.{slice_cmp};
ghost use Rattle.std.specs.Ordering.{nat_cmp};
ghost use Rattle.std.specs.Prelude.{◌≡◌, List, map, length, IfNone, IfOk, IfSome};
ghost use Rattle.table_receipts.specs.Values.{InputValue, input_value};
ghost use Rattle.receipt_merging.specs.Noted.{AreNoted, IsSameAt, NotesOneMore};
ghost use Rattle.receipt_merging.specs.Once.{AreFound};

use std::alloc::{AllocError, Global};
use std::collections::BTreeMap;
use table_receipts::InputReceipt;

/// The places of two inputs that are the same and have data records, counted from 0, if there are such.
pub fn first_twice(
    alloc: Global,
    inputs: &[InputReceipt],
) -> Result<Option<(usize, usize)>, AllocError>
    ensures { IfOk result (AreFound (map input_value inputs.now)) }
{
    let mut places = BTreeMap::new(alloc);
    for (place, input) in inputs.iter().enumerate() {
        if let Some(first) = note(&mut places, input, place)? {
            return Ok(Some((first, place)));
        }
    }
    Ok(None)
}

// Notes the place of an input by its digest, if it has data records; or answers the place of the one before that is the
// same.
fn note(
    places: &mut BTreeMap<[u8; 32], usize>,
    input: &InputReceipt,
    place: usize,
) -> Result<Option<usize>, AllocError>
    ensures same { (is : List InputValue) → AreNoted is (get (slice_cmp nat_cmp) places.old)
        → IfOk result (λ first. IfSome first (IsSameAt is (input_value input.now))) }
    ensures noted { (is : List InputValue) → place ≡ length is
        → AreNoted is (get (slice_cmp nat_cmp) places.old) → IfOk result (λ first. IfNone first
        (NotesOneMore is (input_value input.now) (get (slice_cmp nat_cmp) places.new))) }
{
    if input.records == 0 {
        return Ok(None);
    }
    let first = places.insert(input.file.sha256, place)?;
    Ok(first)
}
