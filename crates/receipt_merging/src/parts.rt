//! The parts of a table.

ghost use Rattle.std.specs.Prelude.{IfNone, IfSome, map};
ghost use Rattle.receipt_merging.specs.Judging.{AreComplete, HavePlan, IsFirstNot};
ghost use Rattle.receipt_merging.specs.Parts.{part_value};

use table_receipts::Receipt;

/// A part of a table, by its receipt.
#[derive(Drop)]
pub struct Part {
    pub receipt: Receipt,
    /// Whether its plan is the one of the table that it is merged into.
    pub has_plan: bool,
}

/// What parts are merged for all that. Either keeps the merged receipt from being complete.
#[derive(Clone, Copy, Debug, PartialEq, Eq)]
pub struct Allowed {
    /// Parts that aren't complete.
    pub incomplete: bool,
    /// Inputs with data records that have the same octets: they are counted twice.
    pub twice: bool,
}

/// The place of the first part of another plan, counted from 0.
pub fn first_of_other_plan(parts: &[Part]) -> Option<usize>
    ensures some { IfSome result (IsFirstNot (λ p. p.has_plan) (map part_value parts.now)) }
    ensures none { IfNone result (HavePlan (map part_value parts.now)) }
{
    for (place, part) in parts.iter().enumerate() {
        if !part.has_plan {
            return Some(place);
        }
    }
    None
}

/// The place of the first part that isn't complete, counted from 0.
pub fn first_incomplete(parts: &[Part]) -> Option<usize>
    ensures some { IfSome result (IsFirstNot (λ p. p.receipt.complete) (map part_value parts.now)) }
    ensures none { IfNone result (AreComplete (map part_value parts.now)) }
{
    for (place, part) in parts.iter().enumerate() {
        if !part.receipt.complete {
            return Some(place);
        }
    }
    None
}
