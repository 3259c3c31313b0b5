//! Sockets of recordings: their options, and what the system says of them.
#![tactic(auto)]

mod buffer;
mod drops;
mod options;
mod system;

pub use buffer::set_buffer;
pub use drops::drops_of;
pub use options::option_value;
pub use system::{inode_of, system_drops};
