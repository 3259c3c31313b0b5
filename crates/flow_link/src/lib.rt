//! A link: a bounded ring from the thread of one session to its worker. What is sent over it comes
//! out once and in order, and once both ends are back in one thread nothing of it is lost.
#![tactic(auto)]

mod fault;
pub mod laws;
mod making;
mod parcel;
mod receiver;
mod sender;
mod settled;
mod waiting;

pub use fault::LinkFault;
pub use making::{MAX_CAPACITY, link};
pub use parcel::Parcel;
pub use receiver::{Receiver, Taken};
pub use sender::Sender;
pub use settled::{SettleFault, Settled, settle};
pub use waiting::Patience;
