//! Taking the text of a period in a round.

ghost use Rattle.std.specs.Prelude.{◌≡◌};
ghost use Rattle.command_tables.specs.Taking.{TakesOneText, TakesText};

use super::job::TextJob;
use super::taking::take_text;
use super::telling::{tell_text, write_text_path};
use period_tables::{Round, Rounds, TablePlace, Work, label_of};
use recording_names::{Period, period_name};
use report_writing::{Status, WriteLines};

/// A place of texts, and what is known of the periods there.
#[derive(Drop)]
pub struct Texts<T> {
    pub place: T,
    pub rounds: Rounds,
}

/// Takes the text of a period, if it isn't settled and its table is, writes what became of it, and settles it.
pub fn take_text_of<F, M, T: TablePlace, P: WriteLines, L: WriteLines>(
    job: &TextJob,
    work: &mut Work<F, M, T, P, L>,
    texts: &mut Texts<T>,
    round: Round,
    period: Period,
) -> Status
    ensures { TakesText
        job.now round.entry period result work.old work.new texts.old texts.new }
{
    if !work.rounds.has_settled(period) || texts.rounds.has_settled(period) {
        return Status::Well;
    }
    let status = take_and_tell(job, work, &mut texts.place, round, period);
    let _ = texts.rounds.settle(period);
    status
}

// Takes the text of a period, and writes what became of it.
fn take_and_tell<F, M, T: TablePlace, P: WriteLines, L: WriteLines>(
    job: &TextJob,
    work: &mut Work<F, M, T, P, L>,
    texts: &mut T,
    round: Round,
    period: Period,
) -> Status
    ensures { TakesOneText
        job.now round.entry period result work.old work.new texts.old texts.new }
{
    let Ok(name) = period_name(round.alloc, period) else {
        return Status::Failed;
    };
    let Ok(label) = label_of(round.alloc, round.plan, &name) else {
        return Status::Failed;
    };
    let Ok(path) = texts.table_path(period) else {
        return Status::Failed;
    };
    let outcome = take_text(round.alloc, job, &work.desk.tables, texts, period);
    write_text_path(path.as_str(), &outcome, &mut work.out);
    tell_text(label.as_str(), &outcome, &mut work.err)
}
