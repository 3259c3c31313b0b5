//! The lines of domains in which something wasn't counted.

ghost use Rattle.std.specs.Prelude.{◌≡◌};
ghost use Rattle.report_sessions.specs.ToldLines.{balance_lines, balance_text, balances_told, is_all_counted as all_counted, records_text, sets_text, uncounted_lines};
ghost use Rattle.report_writing.specs.Writing.{Tells};

use ipfix_message::PassedOver;
use ipfix_session::DomainBalance;
use report_writing::{Origin, Verbosity, WriteLines, write_session_start};
use std::io;

/// Writes a line for each domain in which something wasn't counted, if either option asks for it.
pub fn write_balances<W: WriteLines>(
    verbosity: Verbosity,
    session: usize,
    origin: &Origin,
    balances: &[DomainBalance],
    out: &mut W,
) -> io::Result<()>
    ensures { Tells W.lines out.old out.new result
        (balances_told verbosity session origin.now balances.now) }
{
    if verbosity.verbose || verbosity.strict {
        write_each(session, origin, balances, out)
    } else {
        Ok(())
    }
}

fn write_each<W: WriteLines>(
    session: usize,
    origin: &Origin,
    balances: &[DomainBalance],
    out: &mut W,
) -> io::Result<()>
    ensures { Tells W.lines out.old out.new result
        (uncounted_lines session origin.now balances.now) }
{
    for balance in balances {
        write_balance(session, origin, balance, out)?;
    }
    Ok(())
}

fn write_balance<W: WriteLines>(
    session: usize,
    origin: &Origin,
    balance: &DomainBalance,
    out: &mut W,
) -> io::Result<()>
    ensures { Tells W.lines out.old out.new result
        (balance_lines session origin.now balance.now) }
{
    if is_all_counted(balance) {
        Ok(())
    } else {
        write_session_start(session, origin, out)?;
        write_balance_end(balance, out)
    }
}

// Whether nothing was passed over, and nothing is unaccounted for.
fn is_all_counted(balance: &DomainBalance) -> bool
    ensures { result ≡ all_counted balance.now }
{
    let PassedOver {
        skipped_sets,
        unknown_sets,
        ignored_withdrawals,
    } = balance.passed_over;
    unknown_sets == 0 && skipped_sets == 0 && ignored_withdrawals == 0 && balance.unaccounted == 0
}

fn write_balance_end<W: WriteLines>(balance: &DomainBalance, out: &mut W) -> io::Result<()>
    ensures { Tells W.lines out.old out.new result (balance_text balance.now) }
{
    let passed_over = balance.passed_over;
    write_sets(balance.domain, passed_over, out)?;
    write_records(passed_over.ignored_withdrawals, balance.unaccounted, out)
}

#[tactic(auto, unfolding(crate::specs::ToldLines::sets_text))]
fn write_sets<W: WriteLines>(domain: u32, passed_over: PassedOver, out: &mut W) -> io::Result<()>
    ensures { Tells W.lines out.old out.new result (sets_text domain passed_over) }
{
    let unknown_sets = passed_over.unknown_sets;
    let skipped_sets = passed_over.skipped_sets;
    write!(
        out,
        ": domain {domain}: unknown_sets {unknown_sets} skipped_sets {skipped_sets}"
    )
}

#[tactic(auto, unfolding(crate::specs::ToldLines::records_text))]
fn write_records<W: WriteLines>(
    ignored_withdrawals: u64,
    unaccounted: u64,
    out: &mut W,
) -> io::Result<()>
    ensures { Tells W.lines out.old out.new result
        (records_text ignored_withdrawals unaccounted) }
{
    writeln!(
        out,
        " ignored_withdrawals {ignored_withdrawals} unaccounted {unaccounted}"
    )
}
