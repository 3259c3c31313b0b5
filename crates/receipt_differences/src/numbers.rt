//! Numbers that differ from those of a receipt.

ghost use Rattle.report_writing.specs.Writing.{Tells};
ghost use Rattle.receipt_differences.specs.DifferenceLines.{number_differs, number_line, other_line, other_unless};
ghost use Rattle.receipt_differences.specs.Differences.{counts_differ};

use report_writing::WriteLines;
use std::io;
use table_receipts::RecordCounts;

/// Writes a line for each class of records of which there are not as many as the receipt says.
pub fn write_count_differences<E: WriteLines>(
    found: &RecordCounts,
    said: &RecordCounts,
    err: &mut E,
) -> io::Result<()>
    ensures { Tells E.lines err.old err.new result
        (counts_differ found.now said.now) }
{
    write_unless_equal("records: used", found.used, said.used, err)?;
    write_unless_equal("records: options", found.options, said.options, err)?;
    write_unless_equal("records: untimed", found.untimed, said.untimed, err)?;
    write_unless_equal("records: backward", found.backward, said.backward, err)?;
    write_unless_equal("records: unkeyed", found.unkeyed, said.unkeyed, err)?;
    write_unless_equal("records: too_long", found.too_long, said.too_long, err)
}

/// Writes the line of a number that was found, unless the receipt has the same.
pub fn write_unless_equal<E: WriteLines>(
    what: &str,
    found: u64,
    said: u64,
    err: &mut E,
) -> io::Result<()>
    ensures { Tells E.lines err.old err.new result
        (number_differs what.now found said) }
{
    write_unless_same(what, u128::from(found), u128::from(said), err)
}

/// The same of numbers that may be larger.
#[tactic(auto, unfolding(crate::specs::DifferenceLines::number_differs))]
pub fn write_unless_same<E: WriteLines>(
    what: &str,
    found: u128,
    said: u128,
    err: &mut E,
) -> io::Result<()>
    ensures { Tells E.lines err.old err.new result
        (number_differs what.now found said) }
{
    if found == said {
        Ok(())
    } else {
        write_number(what, found, said, err)
    }
}

#[tactic(auto, unfolding(crate::specs::DifferenceLines::number_line))]
fn write_number<E: WriteLines>(what: &str, found: u128, said: u128, err: &mut E) -> io::Result<()>
    ensures { Tells E.lines err.old err.new result
        (number_line what.now found said) }
{
    writeln!(
        err,
        "collectd: verify: {what} {found}, in the receipt {said}"
    )
}

/// Writes the line of what is another one than in the receipt.
#[tactic(auto, unfolding(crate::specs::DifferenceLines::other_line))]
pub fn write_other<E: WriteLines>(what: &str, err: &mut E) -> io::Result<()>
    ensures { Tells E.lines err.old err.new result (other_line what.now) }
{
    writeln!(err, "collectd: verify: {what}: not that of the receipt")
}

/// The same, unless it is the same.
#[tactic(auto, unfolding(crate::specs::DifferenceLines::other_unless))]
pub fn write_other_unless<E: WriteLines>(is_same: bool, what: &str, err: &mut E) -> io::Result<()>
    ensures { Tells E.lines err.old err.new result (other_unless is_same what.now) }
{
    if is_same {
        Ok(())
    } else {
        write_other(what, err)
    }
}
