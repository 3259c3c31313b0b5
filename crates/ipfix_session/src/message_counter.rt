//! Counting the messages of a text that is read in pieces (RFC 7011, section 3.1).

ghost use Rattle.std.specs.Prelude.{◌≡◌, ◌+◌, ◌<◌, ◌↔◌, ◌++◌, ℕ, List, [], length, IsTrue};
ghost use Rattle.ipfix_session.specs.MessageCounts.{HasRead, IsWithinMessage, at_fault};
ghost use Rattle.ipfix_session.specs.CounterPlaces.{ReadsOn, ReadsPart};

use arrayvec::ArrayVec;
use ipfix_wire::{HEADER_LENGTH, read_header};
use std::marker::Model;
use std::num::NonZeroU16;

// The most octets of a header that isn't whole.
const MOST_BEGUN: usize = HEADER_LENGTH - 1;

/// Where what was read of a text ends.
#[derive(Drop)]
enum CounterPlace {
    /// After these octets of a header; before it, if there are none.
    Header(ArrayVec<u8, MOST_BEGUN>),
    /// Within a message of this length, of which so many octets are to come.
    Message { length: u16, due: NonZeroU16 },
    /// After a header that no message has: none is found from there on.
    Fault,
}

/// Counts the messages of a text that is read in pieces. It goes from header to header by their lengths,
/// and looks at nothing between them.
#[derive(Drop)]
pub struct MessageCounter {
    messages: u64,
    octets: u64,
    place: CounterPlace,
}

impl Model for MessageCounter {
    ghost use Rattle.ipfix_session.specs.MessageCounts.{CounterView};
    ghost use Rattle.ipfix_session.specs.CounterPlaces.{place_view};

    ghost Value = { CounterView };

    ghost view = { λ c. record {
      messages = c.messages;
      octets = c.octets;
      place = place_view c.place;
    } };
}

impl MessageCounter {
    /// Of a text of which nothing was read.
    pub fn new() -> Self
        ensures { HasRead result [] }
    {
        MessageCounter {
            messages: 0,
            octets: 0,
            place: CounterPlace::Header(ArrayVec::new()),
        }
    }

    /// How many messages were read to their end. It stops at `u64::MAX`.
    pub fn count(&self) -> u64
        ensures { result ≡ self.now.messages }
    {
        self.messages
    }

    /// How many octets these messages have. It stops at `u64::MAX`.
    pub fn octets(&self) -> u64
        ensures { result ≡ self.now.octets }
    {
        self.octets
    }

    /// Whether a header was read that no message has: then no more messages are found.
    pub fn is_at_fault(&self) -> bool
        ensures { IsTrue result ↔ (self.now.place ≡ at_fault) }
    {
        matches!(&self.place, CounterPlace::Fault)
    }

    /// Reads on in the text.
    pub fn read(&mut self, piece: &[u8])
        ensures { (text : List ℕ) → HasRead self.old text → HasRead self.new (text ++ piece.now) }
    {
        let mut left = piece;
        while !left.is_empty() {
            left = self.read_part(left);
        }
    }

    // Reads up to the end of the header or of the message that it is in, and gives what is left.
    fn read_part<'a>(&mut self, piece: &'a [u8]) -> &'a [u8]
        requires { 0 < length piece.now }
        ensures reads { ReadsOn self.old self.new piece.now result.now }
        ensures less { length result.now < length piece.now }
    {
        match &mut self.place {
            CounterPlace::Header(begun) => {
                if begun.try_extend_from_slice(piece).is_ok() {
                    return &[];
                }
                let (end, left) = piece.split_at(HEADER_LENGTH - begun.len());
                let header = whole_header(begun.as_slice(), end);
                self.begin_message(&header);
                left
            }
            CounterPlace::Message { length, due } => {
                let length = *length;
                let due = due.get();
                let (part, left) = piece.split_at(usize::from(due).min(piece.len()));
                self.go_on(length, due - part.len() as u16);
                left
            }
            CounterPlace::Fault => &[],
        }
    }

    // Goes on after a whole header.
    fn begin_message(&mut self, header: &[u8; HEADER_LENGTH])
        ensures { ReadsPart self.old self.new (λ rest. rest ≡ header.now) }
    {
        match read_header(header) {
            Ok(header) => self.go_on(header.length, header.length - HEADER_LENGTH as u16),
            Err(_) => self.place = CounterPlace::Fault,
        }
    }

    // Goes on in a message of this length, of which so many octets are to come.
    fn go_on(&mut self, length: u16, due: u16)
        ensures { ReadsPart self.old self.new (IsWithinMessage length due) }
    {
        match NonZeroU16::new(due) {
            Some(due) => self.place = CounterPlace::Message { length, due },
            None => {
                self.messages = self.messages.saturating_add(1);
                self.octets = self.octets.saturating_add(u64::from(length));
                self.place = CounterPlace::Header(ArrayVec::new());
            }
        }
    }
}

// A header that was read in two parts.
fn whole_header(begun: &[u8], end: &[u8]) -> [u8; HEADER_LENGTH]
    requires { length begun.now + length end.now ≡ HEADER_LENGTH }
    ensures { result ≡ begun.now ++ end.now }
{
    let mut header = [0; HEADER_LENGTH];
    header[..begun.len()].copy_from_slice(begun);
    header[begun.len()..].copy_from_slice(end);
    header
}
