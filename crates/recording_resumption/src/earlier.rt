//! What becomes of what an earlier run knew of a domain.

ghost use Rattle.std.specs.Prelude.{◌≡◌, false};
ghost use Rattle.recording_resumption.specs.Resumption.{after, is_resumed, is_waiting};
ghost use Rattle.recording_resumption.specs.declared.earlier.Earlier.{Earlier};
ghost use Rattle.recording_resumption.specs.declared.earlier.Earlier.TheVariants.{Waiting};

use crate::last_message::LastMessage;
use ipfix_wire::Header;

/// What becomes of the templates that an earlier run knew in a domain, by the datagrams that come now.
#[derive(Clone, Copy, Debug, PartialEq, Eq)]
pub enum Earlier {
    /// No datagram has gone on yet, and the templates aren't known.
    Waiting {
        /// The last message that is kept.
        last: LastMessage,
        /// Whether one datagram came that didn't go on.
        is_doubted: bool,
    },
    /// A datagram went on: the templates are known.
    Resumed,
    /// The templates are no longer of use.
    Ended,
}

impl Earlier {
    /// Nothing has come yet after this message.
    pub fn new(last: LastMessage) -> Self
        ensures { result ≡ Waiting last false }
    {
        Earlier::Waiting {
            last,
            is_doubted: false,
        }
    }

    /// After one more datagram, and whether that defines a template. One that goes on resumes: it is read with the
    /// templates already. The first that doesn't is read without them, and changes nothing unless it
    /// defines a template; the second ends them.
    pub fn after(self, header: &Header, defines: bool) -> Self
        ensures { result ≡ after self header.now defines }
    {
        match self {
            Earlier::Waiting { last, is_doubted } => {
                if last.goes_on(header) {
                    Earlier::Resumed
                } else if defines || is_doubted {
                    Earlier::Ended
                } else {
                    Earlier::Waiting {
                        last,
                        is_doubted: true,
                    }
                }
            }
            Earlier::Resumed => Earlier::Resumed,
            Earlier::Ended => Earlier::Ended,
        }
    }

    /// Whether the templates are known.
    pub fn is_resumed(self) -> bool
        ensures { result ≡ is_resumed self }
    {
        matches!(self, Earlier::Resumed)
    }

    /// Whether no datagram has gone on or ended them.
    pub fn is_waiting(self) -> bool
        ensures { result ≡ is_waiting self }
    {
        matches!(self, Earlier::Waiting { .. })
    }
}
