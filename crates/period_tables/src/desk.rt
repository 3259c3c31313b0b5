//! What a round works with.

ghost use Rattle.period_tables.specs.Seen.{AreSeen, PlaceIsSeen};

use crate::place::TablePlace;
use crate::rounds::Rounds;
use report_writing::WriteLines;

/// A folder of recordings, what makes tables, and where they are put.
#[derive(Drop)]
pub struct Desk<F, M, T: TablePlace> {
    pub folder: F,
    pub maker: M,
    pub tables: T,
    // What contracts see of the place is in the type: clauses needn't name it.
    ghost seen: { PlaceIsSeen T.TablePlace },
}

/// A desk, what the paths of its tables and the lines about them are written to, and what is known of periods.
#[derive(Drop)]
pub struct Work<F, M, T: TablePlace, P: WriteLines, L: WriteLines> {
    pub desk: Desk<F, M, T>,
    pub out: P,
    pub err: L,
    pub rounds: Rounds,
    // The same of what is written to.
    ghost seen: { AreSeen P.WriteLines L.WriteLines },
}
