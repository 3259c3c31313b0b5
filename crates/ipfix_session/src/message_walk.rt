//! The whole messages that a file begins with (RFC 7011, section 3.1).

ghost use Rattle.std.specs.Prelude.{◌<◌, length};
ghost use Rattle.ipfix_session.specs.WholeMessages.{TellsWholeOctets};

use crate::message_counter::MessageCounter;
use std::alloc::Global;
use std::io::{self, ErrorKind, Read};

/// The octets that are read at a time.
const PIECE: usize = 65536;

/// How many octets of what a reader gives are whole messages, one after another from its front. It looks
/// at headers alone, and holds at most a piece. The number stops at `u64::MAX`. An `Err` is the reader's,
/// or memory that couldn't be had.
pub fn whole_messages<R: Read>(alloc: Global, reader: &mut R) -> io::Result<u64>
    ensures { TellsWholeOctets result (R.remaining reader.old) }
{
    let mut piece = vec![in alloc; 0; PIECE]?;
    walk(reader, &mut piece)
}

// Walks over the messages of a reader through this buffer.
fn walk<R: Read>(reader: &mut R, piece: &mut [u8]) -> io::Result<u64>
    requires { 0 < length piece.old }
    ensures { TellsWholeOctets result (R.remaining reader.old) }
{
    let mut whole = MessageCounter::new();
    for _ in 0..u64::MAX {
        match reader.read(piece) {
            Ok(0) => return Ok(whole.octets()),
            Ok(count) => whole.read(&piece[..count]),
            Err(error) if error.kind() == ErrorKind::Interrupted => continue,
            Err(error) => return Err(error),
        }
        if whole.is_at_fault() {
            return Ok(whole.octets());
        }
    }
    Err(io::Error::from(ErrorKind::Interrupted))
}
