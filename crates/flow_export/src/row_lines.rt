//! The lines of rows, many of them written at once.

ghost use Rattle.std.specs.Prelude.{◌≡◌, ◌≢◌, ◌++◌, ◌*◌, ◌<◌, ◌^◌, All, OnOk, IfErr, flat_map};
ghost use Rattle.ipfix_elements.specs.Writers.{Writes};
ghost use Rattle.flow_export.specs.Fitting.{IsExportable};
ghost use Rattle.flow_export.specs.Fronts.{IsFront};
ghost use Rattle.flow_export.specs.Passing.{PassesOn};

use crate::fault::ExportFault;
use crate::front::Front;
use crate::table_rows::TableRows;
use flow_table::{Plan, Row};
use std::alloc::{AllocError, Global};
use std::io::Write;

/// Lines are written once they have so many octets: a `BufWriter` of no more passes them on as they are.
const BLOCK_LENGTH: usize = 65_536;

/// Makes the line of a row.
pub trait RowLines {
    ghost use Rattle.std.specs.Prelude.{◌≡◌, ◌++◌, ◌*◌, ◌<◌, ◌^◌, ℕ, List, OnOk};
    ghost use Rattle.flow_table.specs.Plans.{PlanValue};
    ghost use Rattle.flow_table.specs.SameTables.{RowValue, value_of};
    ghost use Rattle.flow_export.specs.Fitting.{IsExportable};

    /// That it was made for a plan.
    ghost is_for: { Self → PlanValue → Type 0 };

    /// What the line of each row of an interval begins with.
    ghost front_of: { Self → PlanValue → ℕ → List ℕ };

    /// The line of a row.
    ghost line_of: { Self → PlanValue → RowValue → List ℕ };

    /// Appends what the line of each row of an interval begins with.
    fn append_front(&self, plan: &Plan, interval: u64, out: &mut Vec<u8>) -> Result<(), AllocError>
        requires { interval * plan.now.length < 2 ^ 50 }
        ensures { OnOk result
            (out.new.items ≡ out.old.items ++ front_of self.now plan.now interval) };

    /// Appends what is left of the line of a row, after what it begins with.
    fn append_rest(&self, plan: &Plan, row: &Row, out: &mut Vec<u8>) -> Result<(), AllocError>
        requires made { is_for self.now plan.now }
        requires fits { IsExportable plan.now (value_of row.now) }
        ensures { OnOk result ((before : List ℕ)
            → out.old.items ≡ before ++ front_of self.now plan.now row.now.interval
            → out.new.items ≡ before ++ line_of self.now plan.now (value_of row.now)) };
}

/// Writes the line of each row.
pub fn write_lines<L: RowLines, W: Write>(
    alloc: Global,
    plan: &Plan,
    rows: &mut TableRows,
    lines: &L,
    out: &mut W,
) -> Result<(), ExportFault>
    requires made { L.is_for lines.now plan.now }
    requires fit { All (IsExportable plan.now) rows.old }
    ensures ok { OnOk result
        (Writes W.contents out.old out.new (flat_map (L.line_of lines.now plan.now) rows.old)) }
    ensures fault { IfErr result (λ fault. fault ≢ ExportFault.TooManyRows) }
{
    let mut front = Front::new(alloc);
    let mut text = Vec::new(alloc);
    while let Some(row) = rows.first() {
        append_front(plan, lines, row.interval, &mut front, &mut text)?;
        lines.append_rest(plan, row, &mut text)?;
        rows.pass()?;
        write_block(&mut text, out)?;
    }
    out.write_all(text.as_slice())?;
    Ok(())
}

// Appends what the line of each row of an interval begins with. It is kept for those that follow.
fn append_front<L: RowLines>(
    plan: &Plan,
    lines: &L,
    interval: u64,
    front: &mut Front,
    out: &mut Vec<u8>,
) -> Result<(), AllocError>
    requires kept { IsFront (L.front_of lines.now plan.now) front.old }
    requires fits { interval * plan.now.length < 2 ^ 50 }
    ensures ok { OnOk result
        (out.new.items ≡ out.old.items ++ L.front_of lines.now plan.now interval) }
    ensures kept { IsFront (L.front_of lines.now plan.now) front.new }
{
    if front.interval != Some(interval) {
        front.interval = None;
        front.text.clear();
        lines.append_front(plan, interval, &mut front.text)?;
        front.interval = Some(interval);
    }
    out.extend_from_slice(front.text.as_slice())
}

// Writes text that is long enough for it, and leaves none of it then.
fn write_block<W: Write>(text: &mut Vec<u8>, out: &mut W) -> Result<(), ExportFault>
    ensures ok { OnOk result
        (PassesOn W.contents text.old.items text.new.items out.old out.new) }
    ensures fault { IfErr result (λ fault. fault ≢ ExportFault.TooManyRows) }
{
    if text.len() < BLOCK_LENGTH {
        return Ok(());
    }
    out.write_all(text.as_slice())?;
    text.clear();
    Ok(())
}
