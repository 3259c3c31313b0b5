//! Taking datagrams, round after round.

ghost use Rattle.std.specs.Prelude.{◌≡◌, ◌≤◌, [], ◌∷◌, length, IfOk};
ghost use Rattle.recording_peers.specs.Answers.{Gives, answer_of};
ghost use Rattle.recording_datagrams.specs.Rounds.{TakesRound, TakesRounds};

use crate::datagram_taker::DatagramTaker;
use recording_connections::RecordingFiles;
use recording_files::PeriodClock;
use recording_peers::{Datagram, DatagramSource, NoDatagram, PeerPlace};
use report_writing::WriteLines;
use std::rt::Clock;
use std::sync::Wait;
use std::time::{Duration, Instant};
use std::{io, thread};

/// How many milliseconds it waits if no datagram can be received.
const PAUSE: u64 = 100;

/// Takes what a source gives in so many rounds: in each it is asked once. Of a datagram that is longer than
/// the buffer the first octets are taken. Seconds are counted from the start; if a time isn't known the last
/// one stays. A line that can't be written stops nothing; its first error is the answer.
pub fn record_datagrams<
    D: DatagramSource,
    F: RecordingFiles + Drop,
    P: PeerPlace<F> + PeriodClock,
    W: WriteLines + Drop,
    R: Clock + Wait,
>(
    rt: &R,
    start: Option<Instant>,
    source: &mut D,
    buffer: &mut [u8],
    taker: &mut DatagramTaker<F, P, W>,
    rounds: u64,
) -> io::Result<()>
    ensures { TakesRounds F.seen F.finishes P.made_for P.asked D.answered W.lines rounds
        source.old source.new taker.old taker.new result }
{
    let mut told: io::Result<()> = Ok(());
    for _ in 0..rounds {
        told = told.and(take_round(rt, start, source, buffer, taker));
    }
    told
}

// Asks a source once, and pauses if no datagram can be received.
fn ask<D: DatagramSource, R: Clock + Wait>(
    rt: &R,
    source: &mut D,
    buffer: &mut [u8],
) -> Result<Datagram, NoDatagram>
    ensures fits { IfOk result (λ d. d.length ≤ length buffer.new) }
    ensures gives { Gives D.answered (answer_of result buffer.new ∷ []) source.old source.new }
{
    let received = source.receive(buffer);
    if received == Err(NoDatagram::Failed) {
        thread::sleep(rt, Duration::from_millis(PAUSE));
    }
    received
}

// One round.
fn take_round<
    D: DatagramSource,
    F: RecordingFiles + Drop,
    P: PeerPlace<F> + PeriodClock,
    W: WriteLines + Drop,
    R: Clock + Wait,
>(
    rt: &R,
    start: Option<Instant>,
    source: &mut D,
    buffer: &mut [u8],
    taker: &mut DatagramTaker<F, P, W>,
) -> io::Result<()>
    ensures { TakesRound F.seen F.finishes P.made_for P.asked D.answered W.lines
        source.old source.new taker.old taker.new result }
{
    let received = ask(rt, source, buffer);
    let now = seconds_since(rt, start).max(taker.second);
    let kept = taker.keep_to_periods(now);
    let taken = taker.take(received, buffer, now);
    kept.and(taken.and(taker.go_on_to(now)))
}

// How many seconds have passed since then; 0 if a time isn't known.
fn seconds_since<R: Clock>(rt: &R, start: Option<Instant>) -> u64 {
    match (start, Instant::now(rt)) {
        (Some(start), Ok(now)) => now.duration_since(start).as_secs(),
        _ => 0,
    }
}
