//! What makes the tables of periods.

ghost use Rattle.period_collect.specs.Seen.{AreSeen};

use crate::period_job::PeriodJob;
use input_sources::OpenSource;
use ipfix_session::Source;
use report_writing::WriteLines;
use std::alloc::Global;
use std::marker::PhantomData;

/// What makes the tables of files in a folder of recordings, which it opens so, by one job. The lines about them are written
/// to `err`.
#[derive(Drop)]
pub struct TableMaker<'a, S: Source, O: OpenSource<S>, E: WriteLines> {
    pub alloc: Global,
    pub opening: O,
    pub sources: PhantomData<S>,
    pub job: PeriodJob<'a>,
    pub err: E,
    // What contracts see of the sources, of what opens them and of where the lines go is in the type: clauses needn't name it.
    ghost seen: { AreSeen S.Source O.OpenSource E.WriteLines },
}

/// The text of a table, and that of its receipt.
#[derive(Drop)]
pub struct MadeTable {
    pub text: Vec<u8>,
    pub receipt: Vec<u8>,
    /// Whether the run ended with status 1: a session has a fault, or, if the run is strict, anything was lost or passed over.
    pub had_fault: bool,
}
