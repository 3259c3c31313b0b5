//! The plan that parts have to be made under.

ghost use Rattle.std.specs.Prelude.{◌≡◌, ◌↔◌, IsTrue, map};
ghost use Rattle.table_receipts.specs.Values.{file_value, receipt_value};
ghost use Rattle.table_parts.specs.Parts.{HasPlan, HasSameOctets, HaveSameOctets};

use table_receipts::{FileReceipt, Receipt};

/// A plan, as a receipt tells one: its text, the files of elements that it is read with, and those of its maps.
#[derive(Clone, Copy)]
pub struct PlanAtHand<'a> {
    pub text: &'a str,
    pub elements: &'a [FileReceipt],
    pub maps: &'a [FileReceipt],
}

/// Whether the table of a receipt was made under the plan at hand: its text is the same octet for octet, and so are the
/// files of elements and of maps, by their digests, whatever their names are.
pub fn has_plan(plan: &PlanAtHand, receipt: &Receipt) -> bool
    ensures { IsTrue result ↔ HasPlan plan.now (receipt_value receipt.now) }
{
    receipt.plan.as_str() == plan.text
        && have_same_octets(&receipt.elements, plan.elements)
        && have_same_octets(&receipt.maps, plan.maps)
}

// Whether files have the same octets, one after another.
fn have_same_octets(files: &[FileReceipt], others: &[FileReceipt]) -> bool
    ensures { IsTrue result ↔ HaveSameOctets (map file_value files.now) (map file_value others.now) }
{
    let mut left = files;
    let mut rest = others;
    while let Some((file, later)) = left.split_first() {
        let Some((other, others)) = rest.split_first() else {
            return false;
        };
        if !is_same_text(file, other) {
            return false;
        }
        left = later;
        rest = others;
    }
    rest.is_empty()
}

fn is_same_text(file: &FileReceipt, other: &FileReceipt) -> bool
    ensures { IsTrue result ↔ HasSameOctets (file_value file.now) (file_value other.now) }
{
    file.octets == other.octets && file.sha256 == other.sha256
}
