//! How the tables of periods are made.

use command_collect::{CollectJob, MadeWith};

/// How the tables of the periods of a folder of recordings are made.
#[derive(Clone, Copy)]
pub struct PeriodJob<'a> {
    /// The path of the folder.
    pub recordings: &'a str,
    /// What each run does; the exporters are those that the names of its files say.
    pub collect: CollectJob<'a>,
    /// Who makes the tables, and under which plan.
    pub made: &'a MadeWith,
    /// How many rows a session may have by itself: if there are more in a table, those that have more are left out.
    pub rows_of_a_session: u64,
}
