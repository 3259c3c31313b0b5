//! Whether the table of a day is that of its parts.

ghost use Rattle.std.specs.Prelude.{IfErr, IfOk};
ghost use Rattle.command_tables.specs.Receipts.{IsNoReceiptFor};
ghost use Rattle.command_tables.specs.SaidTogether.{IsStanding};

use super::merging::ALLOWED;
use super::receipts::settle;
use input_files::ReadText;
use receipt_merging::{Judgement, judge_parts};
use report_writing::Reason;
use std::alloc::Global;
use table_parts::{NotRead, PartFiles, PlanAtHand, read_parts};

/// How the table of a day stands to its parts.
#[derive(Debug, Drop)]
pub enum Standing {
    /// Its receipt says what theirs do together.
    Theirs,
    /// It says other things, and all of its inputs are among theirs.
    Others,
    /// It has an input of this name, which they don't have any more.
    Lacking(String),
}

/// How the table that has this receipt stands to these parts, by their receipts. If one of them can't be had, or a part is of
/// another plan, it is that of others.
pub(crate) fn stands_for<X: ReadText>(
    texts: &X,
    alloc: Global,
    plan: &PlanAtHand,
    parts: &[PartFiles],
    own: &[u8],
) -> Result<Standing, Reason>
    ensures ok { IfOk result (IsStanding (X.has texts.now) (X.refuses texts.now) plan.now parts.now own.now) }
    ensures reason { IfErr result (IsNoReceiptFor own.now) }
{
    let read = match read_parts(texts, alloc, parts, plan) {
        Ok(read) => read,
        Err(NotRead::OutOfMemory) => return Err(Reason::OutOfMemory),
        Err(NotRead::Receipt(..)) => return Ok(Standing::Others),
    };
    match judge_parts(alloc, read, ALLOWED) {
        Judgement::Merged(merged, _) => settle(alloc, own, merged),
        Judgement::InputTwice(merged, ..) => settle(alloc, own, merged),
        Judgement::OtherPlan(_) => Ok(Standing::Others),
        Judgement::Incomplete(_) => unreachable!(),
        Judgement::OutOfMemory => Err(Reason::OutOfMemory),
    }
}
