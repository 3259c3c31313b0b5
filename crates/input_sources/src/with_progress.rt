//! A source that tells what was read from it.

ghost use Rattle.std.specs.Prelude.{◌≡◌, take, IfOk, OnErr};
ghost use Rattle.ipfix_session.specs.Sources.{IsRead};
ghost use Rattle.input_sources.specs.Progressing.{CountsOctets};

use crate::progress::Progress;
use ipfix_session::{ReadError, Source};
use std::alloc::Global;
use std::io::{ErrorKind, Write};
use std::marker::Model;
use std::num::NonZeroU64;
use std::rt::Clock;

/// A source of which is told, if that is asked for, what was read. Contracts see the source alone.
#[derive(Drop)]
pub struct WithProgress<'a, S: Source + Drop, C: Clock, P: Write + Drop> {
    source: S,
    progress: Option<Progress<'a, C, P>>,
}

impl<'a, S: Source + Drop, C: Clock, P: Write + Drop> Model for WithProgress<'a, S, C, P> {
    ghost Value = { S };

    ghost view = { λ w. w.source };
}

impl<'a, S: Source + Drop, C: Clock, P: Write + Drop> WithProgress<'a, S, C, P> {
    /// The source of the session of this number, counted from 1, which begins now. If there is an `out`,
    /// it is told there what was read, and of how many octets if that is known.
    pub fn new(
        alloc: Global,
        clock: &'a C,
        session: usize,
        source: S,
        size: Option<NonZeroU64>,
        out: Option<P>,
    ) -> Self
        ensures { result ≡ source }
    {
        let progress = match out {
            Some(out) => Progress::new(alloc, clock, session, size, out),
            None => None,
        };
        WithProgress { source, progress }
    }
}

impl<'a, S: Source + Drop, C: Clock, P: Write + Drop> Source for WithProgress<'a, S, C, P> {
    ghost seen = { S.seen };

    ghost failure = { S.failure };

    ghost ended_is_end = { S.ended_is_end };

    fn read(&mut self, buffer: &mut [u8]) -> Result<usize, ReadError> {
        match &mut self.progress {
            None => self.source.read(buffer),
            Some(progress) => read_and_tell(&mut self.source, progress, buffer),
        }
    }

    fn failure(&self) -> Option<ErrorKind> {
        self.source.failure()
    }
}

// Reads from the source, and tells of what it gave. That it can't be told changes nothing.
fn read_and_tell<S: Source, C: Clock, P: Write + Drop>(
    source: &mut S,
    progress: &mut Progress<'_, C, P>,
    buffer: &mut [u8],
) -> Result<usize, ReadError>
    ensures read { IsRead (S.seen source.old) result (S.seen source.new) buffer.new }
    ensures told { IfOk result
        (λ n. CountsOctets progress.old (take n buffer.new) progress.new) }
    ensures silent { OnErr result (progress.new ≡ progress.old) }
{
    let answer = source.read(buffer);
    if let Ok(count) = answer {
        let now = progress.time();
        let _ = progress.took(&buffer[..count], now);
    }
    answer
}
