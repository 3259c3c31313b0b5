//! A source over memory, for tests: it gives its text in pieces, and can be interrupted and fail.

ghost use Rattle.std.specs.Prelude.{◌≡◌, ◌≤◌, ◌<◌, [], true, false, Some, drop, take, length, vec_len};
ghost use Rattle.ipfix_session.specs.Sources.{unread};

use crate::source::{ReadError, Source};

/// A source that gives a text in pieces.
#[derive(Drop)]
pub struct ScriptSource {
    text: Vec<u8>,
    given: usize,
    // What may be given in all, and whether a read after that fails.
    limit: usize,
    fails: bool,
    piece: usize,
    interrupt_at: Option<u64>,
    reads: u64,
    failed: u64,
    ended: bool,
    ghost given_within: { given ≤ limit },
    ghost limit_within: { limit ≤ vec_len text },
    ghost whole: { fails ≡ false → limit ≡ vec_len text },
    ghost positive: { 0 < piece },
    ghost behind_the_end: { ended ≡ true → drop given text.items ≡ [] },
}

impl ScriptSource {
    /// Gives at most `piece` octets a read, and none past the first `fail_at`. The read of number
    /// `interrupt_at`, counted from 1, answers `Interrupted`. Once `fail_at` octets are out each read
    /// answers `Failed`.
    pub fn new(
        text: Vec<u8>,
        piece: usize,
        interrupt_at: Option<u64>,
        fail_at: Option<usize>,
    ) -> Self
        requires { 0 < piece }
        ensures { ⟦<ScriptSource as Source>⟧.seen result ≡ unread (Some text.items) }
    {
        let (limit, fails) = match fail_at {
            Some(at) if at <= text.len() => (at, true),
            _ => (text.len(), false),
        };
        ScriptSource {
            text,
            given: 0,
            limit,
            fails,
            piece,
            interrupt_at,
            reads: 0,
            failed: 0,
            ended: false,
        }
    }
}

// Copies the first octets of a text to the front of a buffer.
fn copy_front(text: &[u8], count: usize, buffer: &mut [u8])
    requires there { count ≤ length text.now }
    requires room { count ≤ length buffer.old }
    ensures { take count buffer.new ≡ take count text.now }
{
    buffer[..count].copy_from_slice(&text[..count]);
}

impl Source for ScriptSource {
    ghost use Rattle.std.specs.Prelude.{unwrap_or};
    ghost use Rattle.std.proofs.Common.{sym, ap, ◌∙◌};

    ghost seen = { λ s. record {
      text = Some (drop s.given s.text.items);
      reads = s.reads;
      failed = s.failed;
      ended = s.ended;
    } };

    ghost ended_is_end = { λ s e xs h. sym (ap (λ o. unwrap_or o []) h) ∙ s.behind_the_end e };

    fn read(&mut self, buffer: &mut [u8]) -> Result<usize, ReadError> {
        self.reads = self.reads.saturating_add(1);
        if self.interrupt_at == Some(self.reads) {
            return Err(ReadError::Interrupted);
        }
        if self.given == self.limit && self.fails {
            self.failed = self.failed.saturating_add(1);
            return Err(ReadError::Failed);
        }
        let count = (self.limit - self.given).min(self.piece).min(buffer.len());
        copy_front(&self.text[self.given..], count, buffer);
        self.given += count;
        if count == 0 && !buffer.is_empty() {
            self.ended = true;
        }
        Ok(count)
    }
}
