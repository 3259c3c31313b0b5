//! How many datagrams of a socket were dropped, as the system says.

ghost use Rattle.std.specs.Prelude.{◌≡◌, ◌≢◌, ◌<◌, ◌^◌, ℕ, MatchOption, find, decimal, option_map, slice_get};
ghost use Rattle.std.specs.Str.Lines.{lines};
ghost use Rattle.recording_sockets.specs.Drops.{SaysDropped, is_of as is_line_of, words};

use itoa::Buffer;

/// Which word of a line is the inode of its socket, counted from 0.
const INODE: usize = 9;

/// Which one is how many datagrams were dropped.
const DROPPED: usize = 12;

/// How many datagrams of the socket of an inode were dropped, by the text that Linux has of its UDP sockets
/// (`/proc/net/udp`); `None` if the text doesn't say so, or says a number of more than 64 bits.
pub fn drops_of(text: &str, inode: u64) -> Option<u64>
    ensures { MatchOption result
        ((n : ℕ) → n < 2 ^ 64 → ¬ SaysDropped text.now inode n)
        (λ n. SaysDropped text.now inode n) }
{
    let line = line_of(text, Buffer::new().format(inode))?;
    number_in(word_of(line, DROPPED)?)
}

// The first line of a socket.
fn line_of<'t>(text: &'t str, inode: &str) -> Option<&'t str>
    ensures { option_map (λ line. line.now) result ≡ find (is_line_of inode.now) (lines text.now) }
{
    text.lines().find(|line| is_of(line, inode))
}

fn is_of(line: &str, inode: &str) -> bool
    ensures { result ≡ is_line_of inode.now line.now }
{
    match word_of(line, INODE) {
        Some(word) => word == inode,
        None => false,
    }
}

// A word of a line.
fn word_of(line: &str, place: usize) -> Option<&str>
    ensures { option_map (λ word. word.now) result ≡ slice_get (words line.now) place }
{
    line.split(' ').filter(|part| !part.is_empty()).nth(place)
}

// A decimal number of 64 bits, without a sign or leading zeros.
fn number_in(text: &str) -> Option<u64>
    ensures { MatchOption result
        ((n : ℕ) → n < 2 ^ 64 → text.now ≢ decimal n)
        (λ n. text.now ≡ decimal n) }
{
    match text.parse::<u64>() {
        Ok(number) if Buffer::new().format(number) == text => Some(number),
        _ => None,
    }
}
