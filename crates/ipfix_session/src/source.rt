//! Where the octets of a session come from.

ghost use Rattle.std.specs.Prelude.{◌≡◌, [], true};
ghost use Rattle.std.specs.Option.{ForSome};

use std::io::ErrorKind;
use thiserror::Error;

/// Why a read gave no octets.
#[derive(Clone, Copy, Debug, PartialEq, Eq, Error)]
pub enum ReadError {
    /// The read was interrupted, and may be tried again.
    #[error("the read was interrupted")]
    Interrupted,
    #[error("the read failed")]
    Failed,
}

/// A source of octets. Its counts stop at `u64::MAX`.
pub trait Source {
    ghost use Rattle.std.specs.Prelude.{Option, None, Some, IfSome};
    ghost use Rattle.std.specs.declared.io.ErrorKind.{ErrorKind};
    ghost use Rattle.ipfix_session.specs.Sources.{SourceView, IsRead};

    /// What contracts see of it: the octets that it still holds, if it shows them; how many reads there
    /// were; how many of them answered `Failed`; and whether one has shown the end, that is, answered 0
    /// octets with room for some.
    ghost seen: { Self → SourceView };

    /// What the system answered to the last read that failed, if one did and it is known. A source that
    /// doesn't say so knows none.
    ghost failure: { Self → Option ErrorKind } = { λ _. None };

    /// Moves octets from the front of the text into the front of the buffer, and answers how many. An
    /// `Err` moves none.
    fn read(&mut self, buffer: &mut [u8]) -> Result<usize, ReadError>
        ensures { IsRead (seen self.old) result (seen self.new) buffer.new };

    /// What the system answered to the last read that failed, if one did and it is known.
    fn failure(&self) -> Option<ErrorKind>
        ensures { IfSome result (λ kind. failure self.now ≡ Some kind) }
    {
        None
    }

    /// After its end it holds nothing.
    ghost ended_is_end: { (s : Self) → (seen s).ended ≡ true
        → ForSome (seen s).text (λ xs. xs ≡ []) };
}
