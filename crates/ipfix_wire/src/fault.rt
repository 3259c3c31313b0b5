//! Why a header could not be read.

ghost use Rattle.std.specs.Prelude.{◌≡◌};
ghost use Rattle.ipfix_wire.specs.Faults.{number_of, name_of};

use thiserror::Error;

/// Why a message header or a set header could not be read.
#[derive(Clone, Copy, Debug, PartialEq, Eq, Error)]
pub enum WireFault {
    /// The version of a message is not 10 (RFC 7011, section 3.1).
    #[error("the version is not 10")]
    Version,
    /// The length of a message is less than its header's (RFC 7011, section 3.1).
    #[error("the message length is wrong")]
    MessageLength,
    /// Fewer octets are left than a set header has (RFC 7011, section 3.3.2).
    #[error("a set header is cut")]
    SetHeader,
    /// The length of a set is less than its header's, or goes past the end of the message
    /// (RFC 7011, section 3.3.2).
    #[error("a set length is wrong")]
    SetLength,
}

impl WireFault {
    /// The number that reports give for the fault.
    pub fn number(&self) -> u8
        ensures { result ≡ number_of self.now }
    {
        match self {
            WireFault::Version => 1,
            WireFault::MessageLength => 2,
            WireFault::SetHeader => 3,
            WireFault::SetLength => 4,
        }
    }

    /// The name that reports give for the fault.
    pub fn name(&self) -> &'static str
        ensures { result.now ≡ name_of self.now }
    {
        match self {
            WireFault::Version => "Version",
            WireFault::MessageLength => "MessageLength",
            WireFault::SetHeader => "SetHeader",
            WireFault::SetLength => "SetLength",
        }
    }
}
