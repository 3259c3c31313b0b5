//! What is to be done with a datagram.

use crate::datagram::Datagram;

/// What is to be done with a datagram that came.
#[derive(Drop)]
pub enum Offer {
    /// It is to be written now.
    Write,
    /// It waits: a copy of it is kept.
    Waits,
    /// It came already, and is dropped.
    Doubled,
    /// This one, that waited, is to be written first, and then the other is to be offered again.
    First(Datagram),
    /// The numbers of its domain begin anew with it: those of the domain that wait are to be written first, as
    /// [`Window::leave_domain`](crate::Window::leave_domain) gives them, and then it.
    Anew,
}
