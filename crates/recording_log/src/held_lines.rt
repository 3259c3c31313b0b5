//! Lines of sessions whose file could not be written: all but the first of a second are held until it is over.

ghost use Rattle.std.specs.Prelude.{◌≡◌, ◌<◌, ◌≤◌, ◌++◌, IfOk, IfSome, codes, decimal, drop, length, vec_capacity};
ghost use Rattle.ipfix_session.specs.Sources.{one_more};
ghost use Rattle.report_writing.specs.Writing.{Tells};
ghost use Rattle.recording_log.specs.Held as specs;
ghost use Rattle.recording_log.specs.Held.{after_second, held_text, held_times, is_held, is_not_written as is_line_of_not_written, nothing_held, peer_not_written, session_not_written, with_line};
ghost use Rattle.recording_log.specs.declared.held_lines.TheConstants.{MOST_HELD};

use report_writing::WriteLines;
use std::alloc::{AllocError, Global};
use std::marker::Model;
use std::{io, mem};

/// How many octets a line has at most that is held.
pub const MOST_HELD: usize = 256;

/// How the line of a session begins. Its peer follows, and a space.
const SESSION: &[u8] = b"collectd: session ";

/// What follows if its file could not be written, and maybe why.
const NOT_WRITTEN: &[u8] = b"fault 19 NotWritten";

/// What is held of the lines of sessions whose file could not be written: where a disk is full each datagram of each peer
/// may end a session. The first of a second is told at once. Of those that come after it in the same second the last is
/// held, and how many they are.
#[derive(Drop)]
pub struct HeldLines {
    is_told: bool,
    count: u64,
    last: Vec<u8>,
    ghost room: { MOST_HELD ≤ vec_capacity last },
}

impl Model for HeldLines {
    ghost use Rattle.recording_log.specs.Held.{HeldView};

    ghost Value = { HeldView };

    ghost view = { λ h. record { is_told = h.is_told; count = h.count; last = h.last.items } };
}

impl HeldLines {
    /// None is held, and none was told.
    pub fn new(alloc: Global) -> Result<Self, AllocError>
        ensures { IfOk result (λ held. held ≡ nothing_held) }
    {
        let last = Vec::with_capacity(alloc, MOST_HELD)?;
        Ok(HeldLines {
            is_told: false,
            count: 0,
            last,
        })
    }

    /// Takes a line, and answers whether it is held: then it isn't to be told now. The count stops at `u64::MAX`.
    pub fn hold(&mut self, line: &[u8]) -> bool
        ensures is_held { result ≡ is_held self.old line.now }
        ensures kept { self.new ≡ with_line self.old line.now }
    {
        if !is_not_written(line) {
            return false;
        }
        if self.is_told {
            self.keep(line);
            return true;
        }
        self.is_told = true;
        false
    }

    /// Writes the last line that is held, and with it how many are held, if there are any.
    pub fn write<W: WriteLines>(&self, out: &mut W) -> io::Result<()>
        ensures { Tells W.lines out.old out.new result (held_text self.now) }
    {
        match self.count {
            0 => Ok(()),
            1 => out.write_all(self.last.as_slice()),
            _ => self.write_times(out),
        }
    }

    /// A second is over: what was held in it goes to `told`, whose own lines are forgotten, and counts as the first line of
    /// the next second, if there is any.
    pub fn begin_second(&mut self, told: &mut HeldLines)
        ensures told { told.new ≡ self.old }
        ensures after { self.new ≡ after_second self.old }
    {
        mem::swap(self, told);
        self.is_told = told.count > 0;
        self.count = 0;
        self.last.clear();
    }

    // Keeps a line in place of the one before it.
    fn keep(&mut self, line: &[u8])
        requires { length line.now ≤ MOST_HELD }
        ensures { self.new ≡ record self.old { count = one_more self.old.count; last = line.now } }
    {
        self.count = self.count.saturating_add(1);
        self.last.clear();
        let _ = self.last.extend_from_slice(line);
    }

    // Writes the last line that is held, and how often one like it came.
    #[tactic(auto, unfolding(crate::specs::Held::held_times))]
    fn write_times<W: WriteLines>(&self, out: &mut W) -> io::Result<()>
        ensures { Tells W.lines out.old out.new result (held_times self.now.last self.now.count) }
    {
        let end = self.last.len().saturating_sub(1);
        out.write_all(&self.last.as_slice()[..end])?;
        write_count(self.count, out)
    }
}

// Whether a line is that of a session whose file could not be written.
fn is_not_written(line: &[u8]) -> bool
    ensures { result ≡ is_line_of_not_written line.now }
{
    line.len() <= MOST_HELD && is_session_not_written(line)
}

// Whether it is that of a session, and that follows.
fn is_session_not_written(line: &[u8]) -> bool
    ensures { result ≡ session_not_written line.now }
{
    if line.starts_with(SESSION) {
        is_peer_not_written(after_start(line))
    } else {
        false
    }
}

// What follows after the beginning of such a line.
fn after_start(line: &[u8]) -> &[u8]
    requires { 18 ≤ length line.now }
    ensures { result.now ≡ drop 18 line.now }
{
    &line[SESSION.len()..]
}

// Whether that follows after the peer in a line.
fn is_peer_not_written(text: &[u8]) -> bool
    ensures { result ≡ peer_not_written text.now }
{
    match space_in(text) {
        Some(space) => text[space + 1..].starts_with(NOT_WRITTEN),
        None => false,
    }
}

// Where the first space is.
fn space_in(text: &[u8]) -> Option<usize>
    ensures value { result ≡ specs.space_in text.now }
    ensures within { IfSome result (λ space. space < length text.now) }
{
    text.iter().position(|octet| *octet == b' ')
}

fn write_count<W: WriteLines>(count: u64, out: &mut W) -> io::Result<()>
    ensures { Tells W.lines out.old out.new result
        (codes " (" ++ (decimal count ++ codes " times)\n")) }
{
    writeln!(out, " ({count} times)")
}
