//! A text that comes in pieces, as messages: the front of a message is kept until the rest of it comes.

ghost use Rattle.std.specs.Prelude.{◌≡◌, ◌<◌, ◌≤◌, ◌++◌, [], ℕ, max, length, List, IfSome, IfNone, IfOk, IfErr};
ghost use Rattle.std.specs.Option.{ForSome};
ghost use Rattle.ipfix_session.specs.MessageSinks.{IsBetween, IsAtRest, Stops, Reads};
ghost use Rattle.ipfix_session.specs.declared.message_stream.TheConstants.{LONGEST_MESSAGE};
ghost use Rattle.ipfix_session.specs.Buffers.{IsRest, MovesUpTo, Fills};

use crate::fault::SessionFault;
use crate::message_sink::MessageSink;
use crate::message_stream::next_message;
use ipfix_wire::{HEADER_LENGTH, read_header};
use std::alloc::{AllocError, Global};

// Moves octets from the front of a piece until the buffer has this size, and gives what is left.
fn move_up_to<'a>(
    size: usize,
    buffer: &mut Vec<u8>,
    piece: &'a [u8],
) -> Result<&'a [u8], AllocError>
    ensures moves { IfOk result (λ left.
        MovesUpTo size buffer.old.items buffer.new.items piece.now left.now) }
    ensures at_most { length buffer.new.items ≤ max size (length buffer.old.items) }
{
    let count = size.saturating_sub(buffer.len()).min(piece.len());
    let (front, left) = piece.split_at(count);
    buffer.extend_from_slice(front)?;
    Ok(left)
}

// Moves octets from the front of a piece until the buffer is a whole message, or begins with a header
// that is refused, and gives what is left.
fn fill<'a>(buffer: &mut Vec<u8>, piece: &'a [u8]) -> Result<&'a [u8], AllocError>
    ensures fills { IsRest buffer.old.items → IfOk result (λ left.
        Fills buffer.old.items buffer.new.items piece.now left.now) }
    ensures at_most { length buffer.new.items ≤ max LONGEST_MESSAGE (length buffer.old.items) }
{
    let left = move_up_to(HEADER_LENGTH, buffer, piece)?;
    if buffer.len() < HEADER_LENGTH {
        return Ok(left);
    }
    match read_header(buffer) {
        Ok(header) => move_up_to(usize::from(header.length), buffer, left),
        Err(_) => Ok(left),
    }
}

// Takes the message that the buffer begins, if the piece ends it, and gives what follows it; `None` if
// it doesn't, and the buffer keeps it all.
fn take_begun<'a, T, M: MessageSink<T>>(
    alloc: Global,
    messages: &mut M,
    buffer: &mut Vec<u8>,
    piece: &'a [u8],
    to: &mut T,
) -> Result<Option<&'a [u8]>, SessionFault>
    ensures takes { (x : M.seen.Before) (text : List ℕ) → IsRest buffer.old.items
        → IsBetween M.seen x text messages.old to.old (buffer.old.items ++ piece.now)
        → IfOk result (λ o. IfSome o (λ left.
        IsBetween M.seen x text messages.new to.new left.now)) }
    ensures keeps { (x : M.seen.Before) (text : List ℕ) → IsRest buffer.old.items
        → IsBetween M.seen x text messages.old to.old (buffer.old.items ++ piece.now)
        → IfOk result (λ o. IfNone o (IsAtRest M.seen x text messages.new to.new buffer.new.items)) }
    ensures stops { (x : M.seen.Before) (text : List ℕ) → IsRest buffer.old.items
        → IsBetween M.seen x text messages.old to.old (buffer.old.items ++ piece.now)
        → IfErr result (λ fault. Stops M.seen x fault text messages.new to.new) }
    ensures emptied { IfOk result (λ o. ForSome o (λ left. buffer.new.items ≡ [])) }
    ensures at_most { length buffer.new.items ≤ max LONGEST_MESSAGE (length buffer.old.items) }
{
    if buffer.is_empty() {
        return Ok(Some(piece));
    }
    let left = fill(buffer, piece)?;
    match next_message(buffer) {
        Ok(first) => messages.take(alloc, &first.header, first.octets, to)?,
        Err(stop) => {
            stop.check_open()?;
            return Ok(None);
        }
    }
    buffer.clear();
    Ok(Some(left))
}

// Takes the messages that octets begin with, and gives what follows them.
fn take_whole<'a, T, M: MessageSink<T>>(
    alloc: Global,
    messages: &mut M,
    octets: &'a [u8],
    to: &mut T,
) -> Result<&'a [u8], SessionFault>
    ensures takes { (x : M.seen.Before) (text : List ℕ)
        → IsBetween M.seen x text messages.old to.old octets.now
        → IfOk result (λ rest. IsAtRest M.seen x text messages.new to.new rest.now) }
    ensures stops { (x : M.seen.Before) (text : List ℕ)
        → IsBetween M.seen x text messages.old to.old octets.now
        → IfErr result (λ fault. Stops M.seen x fault text messages.new to.new) }
    ensures begun { IfOk result (λ rest. length rest.now < LONGEST_MESSAGE) }
{
    let mut rest = octets;
    loop {
        let first = match next_message(rest) {
            Ok(first) => first,
            Err(stop) => {
                stop.check_open()?;
                return Ok(rest);
            }
        };
        messages.take(alloc, &first.header, first.octets, to)?;
        rest = first.rest;
    }
}

/// Takes the messages that the buffer and a piece hold, and keeps what follows them in the buffer. A
/// message that lies whole in the piece isn't copied to the buffer.
pub fn read_on<T, M: MessageSink<T>>(
    alloc: Global,
    messages: &mut M,
    buffer: &mut Vec<u8>,
    piece: &[u8],
    to: &mut T,
) -> Result<(), SessionFault>
    ensures reads { (x : M.seen.Before) (text : List ℕ) → IsRest buffer.old.items
        → IsBetween M.seen x text messages.old to.old (buffer.old.items ++ piece.now)
        → Reads M.seen x result text messages.new to.new buffer.new.items }
    ensures at_most { length buffer.new.items ≤ max LONGEST_MESSAGE (length buffer.old.items) }
{
    let left = match take_begun(alloc, messages, buffer, piece, to)? {
        Some(left) => left,
        None => return Ok(()),
    };
    let rest = take_whole(alloc, messages, left, to)?;
    buffer.extend_from_slice(rest)?;
    Ok(())
}
