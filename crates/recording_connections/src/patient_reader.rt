//! A connection as a source: a read that waits too long is a tick, and not the end.

ghost use Rattle.std.specs.Prelude.{
  ◌≡◌,
  ◌≢◌,
  ◌⊎◌,
  ◌≤◌,
  ◌-◌,
  ◌↔◌,
  ⊤,
  [],
  false,
  take,
  true,
  Err,
  IfOk,
  IfSome,
  IsTrue,
  None,
  OnErr,
  OnOk,
  Some,
};
ghost use Rattle.std.specs.Option.{ForSome};
ghost use Rattle.std.specs.Duration.{as_nanos};
ghost use Rattle.std.specs.IoError.{error_kind};
ghost use Rattle.std.specs.Time.{instant_nanos};
ghost use Rattle.ipfix_session.specs.MessageCounts.{HasRead};
ghost use Rattle.ipfix_session.specs.Sources.{unread};
ghost use Rattle.recording_connections.specs.Silences.{FailsBy, IsOverdue, IsTick, IsTooLong, LookedFor, WasRead};

use ipfix_session::{MessageCounter, ReadError, Source};
use std::io::{self, ErrorKind, Read};
use std::rt::Clock;
use std::time::{Duration, Instant};

/// What tells the time, or that it isn't known.
pub trait Moments {
    ghost use Rattle.std.specs.Prelude.{Option};
    ghost use Rattle.std.specs.declared.time.Instant.{Instant};

    /// Whether it may tell this time.
    ghost tells: { Self → Option Instant → Type 0 };

    /// What it tells now.
    fn moment(&self) -> Option<Instant>
        ensures { tells self.now result };
}

/// A clock of the system may tell any time.
impl<C: Clock> Moments for C {
    ghost tells = { λ _ _. ⊤ };

    fn moment(&self) -> Option<Instant> {
        Instant::now(self).ok()
    }
}

/// For how long a connection may be silent.
#[derive(Clone, Copy, Debug, PartialEq, Eq)]
pub struct SilenceLimits {
    /// How long it may send nothing, if there is a limit.
    pub idle: Option<Duration>,
    /// How long it may take, from its beginning, until it has brought a whole message.
    pub first_message: Duration,
}

/// A source over a reader whose reads have a time limit. A read that reaches it is a tick
/// (`ReadError::Interrupted`), unless nothing has come for as long as it may: then it fails, as it does if the
/// reader fails, and if the first message is not whole in time. Once it has shown its end it doesn't ask the reader
/// again.
#[derive(Drop)]
pub struct PatientReader<'a, R: Read, C: Moments> {
    reader: R,
    clock: &'a C,
    silence: SilenceLimits,
    begun: Option<Instant>,
    heard: Option<Instant>,
    // Reads on until a message is whole.
    messages: MessageCounter,
    reads: u64,
    failed: u64,
    // What the last read that failed was answered. It would have blocked, if nothing came in time.
    failure: Option<ErrorKind>,
    ended: bool,
    ghost behind_the_end: { ended ≡ true → ForSome (R.remaining reader) (λ xs. xs ≡ []) },
}

impl<'a, R: Read, C: Moments> PatientReader<'a, R, C> {
    /// A source of which nothing was read, of a connection that begins now.
    pub fn new(clock: &'a C, reader: R, silence: SilenceLimits) -> Self
        ensures unread { ⟦<PatientReader<'a, R, C> as Source>⟧.seen result
            ≡ unread (R.remaining reader) }
        ensures silence { result.silence ≡ silence }
        ensures begun { C.tells clock.now result.begun }
        ensures heard { result.heard ≡ result.begun }
        ensures unfailed { result.failure ≡ None }
        ensures messages { HasRead result.messages [] }
    {
        let now = clock.moment();
        PatientReader {
            reader,
            clock,
            silence,
            begun: now,
            heard: now,
            messages: MessageCounter::new(),
            reads: 0,
            failed: 0,
            failure: None,
            ended: false,
        }
    }

    // Whether the first message should be whole at this time, and isn't.
    fn is_overdue(&self, now: Option<Instant>) -> bool
        ensures { IsTrue result
            ↔ IsOverdue self.now.messages.messages self.now.silence self.now.begun now }
    {
        self.messages.count() == 0 && is_too_long(Some(self.silence.first_message), self.begun, now)
    }
}

impl<'a, R: Read, C: Moments> Source for PatientReader<'a, R, C> {
    ghost seen = { λ s. record {
      text = R.remaining s.reader;
      reads = s.reads;
      failed = s.failed;
      ended = s.ended;
    } };

    ghost ended_is_end = { λ s e. s.behind_the_end e };

    ghost failure = { λ s. s.failure };

    fn read(&mut self, buffer: &mut [u8]) -> Result<usize, ReadError>
        ensures read { WasRead ⟦<PatientReader<'a, R, C> as Source>⟧.seen
            self.old result self.new buffer.new }
        // After octets came, the time at which something was heard last is what the clock told; a tick leaves it.
        ensures heard { OnOk result ((self.old.ended ≡ true)
            ⊎ C.tells self.old.clock.now self.new.heard) }
        ensures unheard { OnErr result (self.new.heard ≡ self.old.heard) }
        ensures begun { self.new.begun ≡ self.old.begun }
        ensures silence { self.new.silence ≡ self.old.silence }
        ensures failure { result ≡ Err ReadError.Failed
            → FailsBy (C.tells self.old.clock.now) self.old.silence self.old.messages.messages
            self.old.begun self.old.heard self.new.failure }
        ensures same { result ≢ Err ReadError.Failed → self.new.failure ≡ self.old.failure }
        ensures looked { IfOk result (λ count. (self.old.ended ≡ false)
            → LookedFor self.old.messages (take count buffer.new) self.new.messages) }
        ensures unlooked { OnErr result (self.new.messages ≡ self.old.messages) }
    {
        self.reads = self.reads.saturating_add(1);
        if self.ended {
            return Ok(0);
        }
        if self.is_overdue(self.clock.moment()) {
            self.failed = self.failed.saturating_add(1);
            self.failure = Some(ErrorKind::WouldBlock);
            return Err(ReadError::Failed);
        }
        match self.reader.read(buffer) {
            Ok(count) => {
                look_for_message(&mut self.messages, &buffer[..count]);
                self.ended = count == 0 && !buffer.is_empty();
                self.heard = self.clock.moment();
                Ok(count)
            }
            Err(error) => {
                let kind = error.kind();
                let now = self.clock.moment();
                let error = read_error(&error, is_too_long(self.silence.idle, self.heard, now));
                if error == ReadError::Failed {
                    self.failed = self.failed.saturating_add(1);
                    self.failure = Some(kind);
                }
                Err(error)
            }
        }
    }

    fn failure(&self) -> Option<ErrorKind>
        ensures known { IfSome result (λ kind. self.now.failure ≡ Some kind) }
        ensures same { result ≡ self.now.failure }
    {
        self.failure
    }
}

// Reads on in what came, until a message is whole.
fn look_for_message(messages: &mut MessageCounter, piece: &[u8])
    ensures { LookedFor messages.old piece.now messages.new }
{
    if messages.count() == 0 {
        messages.read(piece);
    }
}

// A tick, and an interruption, may be tried again, unless the silence is too long. (A read that reaches its time limit
// would block; one that timed out was of a peer that has vanished.)
fn read_error(error: &io::Error, is_too_long: bool) -> ReadError
    ensures { (result ≡ ReadError.Interrupted) ↔ IsTick (error_kind error.now) is_too_long }
{
    match error.kind() {
        ErrorKind::Interrupted => ReadError::Interrupted,
        ErrorKind::WouldBlock if !is_too_long => ReadError::Interrupted,
        _ => ReadError::Failed,
    }
}

// Whether nothing was heard for as long as it may be. If a time isn't known it is not too long.
fn is_too_long(idle: Option<Duration>, heard: Option<Instant>, now: Option<Instant>) -> bool
    ensures { IsTrue result ↔ IsTooLong idle heard now }
{
    match (idle, heard, now) {
        (Some(idle), Some(heard), Some(now)) => has_passed(idle, heard, now),
        _ => false,
    }
}

fn has_passed(time: Duration, from: Instant, now: Instant) -> bool
    ensures { IsTrue result ↔ (as_nanos time ≤ instant_nanos now - instant_nanos from) }
{
    now.duration_since(from).as_nanos() >= time.as_nanos()
}
