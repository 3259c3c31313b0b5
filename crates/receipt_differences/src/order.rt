//! Inputs in an order in which those that are alike stand together.

ghost use Rattle.std.specs.Prelude.{◌≡◌, IfOk, map};
ghost use Rattle.table_receipts.specs.Values.{input_value};
ghost use Rattle.receipt_differences.specs.Inputs.{count_alike as alike};
ghost use Rattle.receipt_differences.specs.Orders.{Ascends, IsOrderOf, values_of};

use crate::likeness::{Likeness, compare};
use std::alloc::{AllocError, Global};
use table_receipts::InputReceipt;

/// The inputs in the order of their octets, their exporters and what their sessions gave.
pub fn in_order(alloc: Global, inputs: &[InputReceipt]) -> Result<Vec<&InputReceipt>, AllocError>
    ensures { IfOk result (λ ordered. IsOrderOf inputs.now ordered.items) }
{
    let mut ordered = each_of(alloc, inputs)?;
    ordered.sort_unstable_by(|input, other| compare(Likeness::Report, input, other));
    Ok(ordered)
}

fn each_of(alloc: Global, inputs: &[InputReceipt]) -> Result<Vec<&InputReceipt>, AllocError>
    ensures { IfOk result (λ each. map (λ i. i.now) each.items ≡ inputs.now) }
{
    let mut each = Vec::with_capacity(alloc, inputs.len())?;
    for input in inputs {
        each.push(input)?;
    }
    Ok(each)
}

/// How many of inputs in this order are so far alike to an input.
pub fn count_alike(to: Likeness, input: &InputReceipt, ordered: &[&InputReceipt]) -> usize
    requires { Ascends ordered.now }
    ensures { result ≡ alike to (input_value input.now) (values_of ordered.now) }
{
    let start = ordered.partition_point(|other| compare(to, other, input).is_lt());
    let rest = &ordered[start..];
    rest.partition_point(|other| compare(to, other, input).is_le())
}
