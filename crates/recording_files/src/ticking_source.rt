//! A source over memory that is interrupted again and again, for tests.

ghost use Rattle.std.specs.Prelude.{◌≡◌, ◌<◌, Some};
ghost use Rattle.ipfix_session.specs.Sources.{unread};

use ipfix_session::{ReadError, ScriptSource, Source};

/// A source that gives a text in pieces, and answers `Interrupted` before each second read, as one with a
/// time limit does.
#[derive(Drop)]
pub struct TickingSource {
    script: ScriptSource,
    tick: bool,
    reads: u64,
}

impl TickingSource {
    /// Gives at most `piece` octets a read. The first read gives some, and the second is interrupted.
    pub fn new(text: Vec<u8>, piece: usize) -> Self
        requires { 0 < piece }
        ensures { ⟦<TickingSource as Source>⟧.seen result ≡ unread (Some text.items) }
    {
        TickingSource {
            script: ScriptSource::new(text, piece, None, None),
            tick: false,
            reads: 0,
        }
    }
}

impl Source for TickingSource {
    ghost use Rattle.ipfix_session.specs.contracts.script.ScriptSourceSource.TheImpl.Laws.{ended_is_end-law};

    ghost seen = { λ s. record (⟦<ScriptSource as Source>⟧.seen s.script) { reads = s.reads } };

    ghost ended_is_end = { λ s. ended_is_end-law s.script };

    fn read(&mut self, buffer: &mut [u8]) -> Result<usize, ReadError> {
        self.reads = self.reads.saturating_add(1);
        self.tick = !self.tick;
        if self.tick {
            self.script.read(buffer)
        } else {
            Err(ReadError::Interrupted)
        }
    }
}
