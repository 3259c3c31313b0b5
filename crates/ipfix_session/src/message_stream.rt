//! A text as messages, one after another (RFC 7011, section 3.1; RFC 5655, section 6).

ghost use Rattle.std.specs.Prelude.{◌≡◌, ◌<◌, length, Ok, Err, IfOk, IfErr};
ghost use Rattle.ipfix_message.specs.Domains.{message_header};
ghost use Rattle.ipfix_session.specs.MessageStream as stream;
ghost use Rattle.ipfix_session.specs.Given.{IsOpen};
ghost use Rattle.ipfix_session.specs.declared.message_stream.TheConstants.{LONGEST_MESSAGE};

use crate::stop::Stop;
use ipfix_message::MessageFault;
use ipfix_wire::{HEADER_LENGTH, Header, read_header};

/// The most octets of a message: its header gives its length in 16 bits.
pub const LONGEST_MESSAGE: usize = 65535;

/// The message that a text begins with.
#[derive(Drop)]
pub struct FirstMessage<'a> {
    /// Its header.
    pub header: Header,
    /// Its octets, those of the header included.
    pub octets: &'a [u8],
    /// What follows it.
    pub rest: &'a [u8],
}

/// The message that a text begins with; or why the text stops there.
#[tactic(auto, unfolding(crate::specs::MessageStream::next_message))]
pub fn next_message(text: &[u8]) -> Result<FirstMessage<'_>, Stop>
    ensures found { IfOk result
        (λ m. stream.next_message text.now ≡ Ok (m.octets.now, m.rest.now)) }
    ensures stopped { IfErr result (λ stop. stream.next_message text.now ≡ Err stop) }
    ensures header { IfOk result (λ first. message_header first.octets.now ≡ Ok first.header) }
    // What may begin a message is shorter than the longest.
    ensures begun { IfErr result (λ stop. IsOpen stop → length text.now < LONGEST_MESSAGE) }
{
    if text.is_empty() {
        return Err(Stop::Clean);
    }
    if text.len() < HEADER_LENGTH {
        return Err(Stop::Short);
    }
    let header = match read_header(text) {
        Ok(header) => header,
        Err(fault) => return Err(Stop::Fault(MessageFault::from(fault))),
    };
    let length = usize::from(header.length);
    if text.len() < length {
        return Err(Stop::Short);
    }
    let (octets, rest) = text.split_at(length);
    Ok(FirstMessage {
        header,
        octets,
        rest,
    })
}
