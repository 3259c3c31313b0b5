//! What takes the messages of a session.

ghost use Rattle.std.specs.Prelude.{◌≡◌, Ok};
ghost use Rattle.ipfix_message.specs.Domains.{message_header};

use crate::fault::SessionFault;
use ipfix_wire::Header;
use std::alloc::Global;

/// Takes the messages of a session one after another, and passes on what they give.
pub trait MessageSink<T> {
    ghost use Rattle.ipfix_session.specs.MessageSinks.{MessageSinkView, TakesNext};

    /// What contracts see of it: which messages it has taken, what it has passed on of them, and whether
    /// it can take the next.
    ghost seen: { MessageSinkView Self T };

    /// Takes a whole message, whose header was read, and passes on what it gives. The fault is the
    /// message's, or `SinkClosed` if that can't be passed on; or `OutOfMemory`.
    fn take(
        &mut self,
        alloc: Global,
        header: &Header,
        message: &[u8],
        to: &mut T,
    ) -> Result<(), SessionFault>
        requires { message_header message.now ≡ Ok header.now }
        ensures { TakesNext seen result self.old to.old self.new to.new message.now };
}
