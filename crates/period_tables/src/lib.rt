//! The tables of the periods of a folder of recordings: if a period is finished and has no table of exactly its files, it is made.
//! In a round each period that isn't settled is taken, and a line says what became of its table.
#![tactic(auto)]

mod desk;
mod finished;
mod outcome;
mod periods;
mod place;
mod recordings;
mod rounds;
mod taking;
mod telling;
mod work;

pub use desk::{Desk, Work};
pub use outcome::Outcome;
pub use periods::take_periods;
pub use place::TablePlace;
pub use recordings::Recordings;
pub use rounds::Rounds;
pub use taking::take_period;
pub use telling::{
    status_of_reason, tell_outcome, tell_removal, tell_unlisted, words_of_unread, worse_of,
    write_path, write_paths, write_period,
};
pub use work::{Round, label_of};
