//! Datagrams in memory, for tests.

ghost use Rattle.std.specs.Prelude.{◌≡◌, ◌⊎◌, ◌≤◌, [], ◌∷◌, false, length, take, IfOk};
ghost use Rattle.recording_peers.specs.Answers.{Gives, answer_of};

use crate::datagram_source::{Datagram, DatagramSource, NoDatagram};
use std::net::SocketAddr;

/// A datagram of a script.
#[derive(Drop)]
pub struct ScriptedDatagram {
    pub peer: SocketAddr,
    pub octets: Vec<u8>,
}

/// A source that gives the answers of a script in turn. After the last it ticks. At a datagram that is
/// longer than the buffer it fails, and from then on contracts see none of its answers.
#[derive(Drop)]
pub struct ScriptDatagrams {
    script: Vec<Result<ScriptedDatagram, NoDatagram>>,
    next: usize,
    is_stuck: bool,
}

impl ScriptDatagrams {
    /// Gives these in turn.
    pub fn new(script: Vec<Result<ScriptedDatagram, NoDatagram>>) -> Self
        ensures answered { ⟦<ScriptDatagrams as DatagramSource>⟧.answered result [] }
        ensures script { result.script ≡ script }
        ensures next { result.next ≡ 0 }
        ensures is_stuck { result.is_stuck ≡ false }
    {
        ScriptDatagrams {
            script,
            next: 0,
            is_stuck: false,
        }
    }
}

// Copies a text to the front of a buffer.
fn copy_front(text: &[u8], buffer: &mut [u8])
    requires { length text.now ≤ length buffer.old }
    ensures { take (length text.now) buffer.new ≡ text.now }
{
    buffer[..text.len()].copy_from_slice(text);
}

impl DatagramSource for ScriptDatagrams {
    ghost use Rattle.std.specs.Prelude.{◌≡◌, false};
    ghost use Rattle.recording_peers.specs.Scripts.{AreFirst, IsStuck, NextIsTooLong};

    ghost answered = { λ s answers. s.is_stuck ≡ false → AreFirst s.script.items s.next answers };

    fn receive(&mut self, buffer: &mut [u8]) -> Result<Datagram, NoDatagram>
        ensures fits { IfOk result (λ d. d.length ≤ length buffer.new) }
        ensures gives { Gives ⟦<ScriptDatagrams as DatagramSource>⟧.answered
            (answer_of result buffer.new ∷ []) self.old self.new }
        // Only a datagram that is longer than the buffer makes it fail.
        ensures stuck { IsStuck self.new
            → IsStuck self.old ⊎ NextIsTooLong (length buffer.old) self.old }
    {
        match self.script.get(self.next) {
            Some(Ok(datagram)) => {
                let length = datagram.octets.len();
                if length > buffer.len() {
                    self.is_stuck = true;
                    return Err(NoDatagram::Failed);
                }
                copy_front(&datagram.octets, buffer);
                self.next += 1;
                Ok(Datagram {
                    length,
                    peer: datagram.peer,
                })
            }
            Some(Err(why)) => {
                self.next += 1;
                Err(*why)
            }
            None => Err(NoDatagram::Tick),
        }
    }
}
