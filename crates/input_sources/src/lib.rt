//! What the commands are given: sources that are had one after another, before the first is read, what has been
//! read of them, and the plan that a text says, or its fault.
#![tactic(auto)]

mod accepting;
mod files_in_turn;
pub mod laws;
mod loaded_plan;
mod map_places;
mod maps;
mod opening;
mod opening_all;
mod place_words;
mod places;
mod plan;
mod plan_fault;
mod progress;
mod scaling_fault;
mod system_listener;
mod unread_sources;
mod where_places;
mod with_progress;
mod with_reason;

pub use accepting::{Accepted, AcceptedAll, Listener, accept_all};
pub use files_in_turn::{FileInTurn, FilesInTurn};
pub use loaded_plan::LoadedPlan;
pub use maps::{LoadedMap, load_maps};
pub use opening::{OpenSource, Opened, SystemFiles};
pub use opening_all::{NotOpened, OpenedAll, open_all};
pub use plan::{load_plan, load_plan_text};
pub use plan_fault::{write_filtered_fault, write_plan_fault};
pub use progress::Progress;
pub use system_listener::SystemListener;
pub use unread_sources::UnreadSources;
pub use with_progress::WithProgress;
pub use with_reason::WithReason;
