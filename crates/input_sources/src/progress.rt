//! What a session has read, written while it reads.

ghost use Rattle.std.specs.Prelude.{◌≡◌, ◌≤◌, ◌<◌, ◌+◌, [], IsTrue, ◌↔◌, OnOk, IfSome, IfNone, option_map};
ghost use Rattle.std.specs.Int.NonZero.{non_zero_u64_get};
ghost use Rattle.std.specs.Time.{instant_nanos};
ghost use Rattle.std.specs.Io.Buffered.{writer_capacity, writer_contents};
ghost use Rattle.ipfix_session.specs.MessageCounts.{HasRead};
ghost use Rattle.input_sources.specs.ProgressLines.{percent_of, progress_line, read_line, share_line, Writes};
ghost use Rattle.input_sources.specs.Progressing.{due, second, CountsOctets, IsDue, IsSilent, TellsLine};
ghost use Rattle.input_sources.specs.declared.progress.TheConstants.{LINE};

use ipfix_session::MessageCounter;
use std::alloc::Global;
use std::cmp;
use std::io::{self, BufWriter, Write};
use std::marker::Model;
use std::num::NonZeroU64;
use std::rt::Clock;
use std::time::Instant;

/// Room for the longest line, so that a line goes out in one piece.
const LINE: usize = 160;

/// Tells what a session has read, at most once a second.
#[derive(Drop)]
pub struct Progress<'a, C: Clock, P: Write + Drop> {
    clock: &'a C,
    last: Instant,
    session: usize,
    read: u64,
    counter: MessageCounter,
    size: Option<NonZeroU64>,
    out: BufWriter<P>,
}

impl<'a, C: Clock, P: Write + Drop> Model for Progress<'a, C, P> {
    ghost use Rattle.std.specs.Prelude.{option_map};
    ghost use Rattle.std.specs.Int.NonZero.{non_zero_u64_get};
    ghost use Rattle.std.specs.Time.{instant_nanos};
    ghost use Rattle.std.specs.Io.Buffered.{writer_buffer, writer_contents};
    ghost use Rattle.input_sources.specs.Progressing.{ProgressView};

    ghost Value = { ProgressView };

    ghost view = { λ p. record {
      session = p.session;
      read = p.read;
      counter = p.counter;
      size = option_map non_zero_u64_get p.size;
      last = instant_nanos p.last;
      written = writer_contents P.contents p.out;
      kept = writer_buffer p.out;
    } };
}

impl<'a, C: Clock, P: Write + Drop> Progress<'a, C, P> {
    /// Of a session that begins now. `None` if there is no memory for a line or no time.
    pub fn new(
        alloc: Global,
        clock: &'a C,
        session: usize,
        size: Option<NonZeroU64>,
        out: P,
    ) -> Option<Self>
        ensures session { IfSome result (λ p. p.session ≡ session) }
        ensures read { IfSome result (λ p. p.read ≡ 0) }
        ensures messages { IfSome result (λ p. HasRead p.counter []) }
        ensures size { IfSome result (λ p. p.size ≡ option_map non_zero_u64_get size) }
        ensures written { IfSome result (λ p. p.written ≡ P.contents out) }
    {
        let last = Instant::now(clock).ok()?;
        let out = line_writer(alloc, out)?;
        Some(Progress {
            clock,
            last,
            session,
            read: 0,
            counter: MessageCounter::new(),
            size,
            out,
        })
    }

    /// The time by its clock, if that tells it.
    pub fn time(&self) -> Option<Instant> {
        Instant::now(self.clock).ok()
    }

    /// Counts octets that were read by now and their messages, and tells of all that were if a second has
    /// gone by since it told last. If no time is known it doesn't tell.
    pub fn took(&mut self, octets: &[u8], now: Option<Instant>) -> io::Result<()>
        ensures counted { CountsOctets self.old octets.now self.new }
        ensures due { IfSome now (λ time. IsDue self.old time
            → OnOk result (TellsLine self.old self.new)) }
        // Also if it can't be told.
        ensures last { IfSome now (λ time. IsDue self.old time
            → self.new.last ≡ instant_nanos time) }
        ensures early { IfSome now
            (λ now. instant_nanos now < due self.old → IsSilent self.old self.new) }
        ensures no_time { IfNone now (IsSilent self.old self.new) }
    {
        self.read = self.read.saturating_add(octets.len() as u64);
        self.counter.read(octets);
        let Some(now) = now else {
            return Ok(());
        };
        if !is_due(self.last, now) {
            return Ok(());
        }
        self.last = now;
        write_progress(
            self.session,
            self.read,
            self.counter.count(),
            self.size,
            &mut self.out,
        )?;
        self.out.flush()
    }
}

// Gives a writer each line in one piece. `None` if there is no memory for a line.
fn line_writer<P: Write + Drop>(alloc: Global, out: P) -> Option<BufWriter<P>>
    ensures room { IfSome result (λ lines. writer_capacity lines ≡ LINE) }
    ensures written { IfSome result (λ lines. writer_contents P.contents lines ≡ P.contents out) }
{
    BufWriter::with_capacity(alloc, LINE, out).ok()
}

// Whether a second has gone by.
fn is_due(last: Instant, now: Instant) -> bool
    ensures { IsTrue result ↔ (instant_nanos last + second ≤ instant_nanos now) }
{
    now.duration_since(last).as_secs() >= 1
}

fn write_progress<W: Write>(
    session: usize,
    read: u64,
    messages: u64,
    size: Option<NonZeroU64>,
    out: &mut W,
) -> io::Result<()>
    ensures { Writes W.contents out.old out.new result
        (progress_line session read messages (option_map non_zero_u64_get size)) }
{
    match size {
        None => write_read(session, read, messages, out),
        Some(size) => write_share(
            session,
            read,
            size.get(),
            percent(read, size),
            messages,
            out,
        ),
    }
}

// The share of a size that was read, in whole percents.
fn percent(read: u64, size: NonZeroU64) -> u8
    ensures { result ≡ percent_of read (non_zero_u64_get size) }
{
    let percents = u128::from(read) * 100 / u128::from(size.get());
    cmp::min(percents, 100) as u8
}

#[tactic(auto, unfolding(crate::specs::ProgressLines::read_line))]
fn write_read<W: Write>(session: usize, read: u64, messages: u64, out: &mut W) -> io::Result<()>
    ensures { Writes W.contents out.old out.new result (read_line session read messages) }
{
    writeln!(
        out,
        "collectd: session {session}: read {read} octets, {messages} messages"
    )
}

#[tactic(auto, unfolding(crate::specs::ProgressLines::share_line))]
fn write_share<W: Write>(
    session: usize,
    read: u64,
    size: u64,
    percent: u8,
    messages: u64,
    out: &mut W,
) -> io::Result<()>
    ensures { Writes W.contents out.old out.new result
        (share_line session read size percent messages) }
{
    writeln!(
        out,
        "collectd: session {session}: read {read} of {size} octets ({percent}%), {messages} messages"
    )
}
