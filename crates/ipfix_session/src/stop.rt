//! Where a text stops.

ghost use Rattle.std.specs.Prelude.{◌≡◌, MatchResult};
ghost use Rattle.ipfix_session.specs.Given.{IsOpen};

use ipfix_message::MessageFault;

/// Where the messages of a text stop.
#[derive(Clone, Copy)]
pub enum Stop {
    /// Nothing is left after the last message.
    Clean,
    /// The text ends within a message.
    Short,
    /// A message was refused.
    Fault(MessageFault),
}

impl Stop {
    /// A text that stops for a fault goes no further.
    pub fn check_open(self) -> Result<(), MessageFault>
        ensures { MatchResult result (λ _. IsOpen self) (λ fault. self ≡ Stop.Fault fault) }
    {
        match self {
            Stop::Clean | Stop::Short => Ok(()),
            Stop::Fault(fault) => Err(fault),
        }
    }
}
