//! The octets of a line, in room that stays.

ghost use Rattle.std.specs.Prelude.{◌≡◌, ◌+◌, ◌≤◌, [], ◌++◌, length, take, vec_len, decimal, Some, OnOk, OnErr};
ghost use Rattle.ipfix_elements.specs.Texts.{ipv4_text};

use ipfix_elements::{MOST_ADDRESS_OCTETS, MOST_DIGITS, place, place_decimal, place_ipv4};
use std::alloc::{AllocError, Global};
use std::io::{self, Write};
use std::marker::Model;

/// The least room that a line gets.
const LEAST_ROOM: usize = 1024;

/// The octets of a line, in room that stays from line to line. Contracts see the octets.
#[derive(Drop)]
pub struct LineOctets {
    room: Vec<u8>,
    used: usize,
}

impl Model for LineOctets {
    ghost use Rattle.std.specs.Prelude.{ℕ, List, ◌≤◌, length, take};

    ghost Value = { List ℕ };

    ghost view = { λ line. take line.used line.room.items };

    ghost invariant = { λ line. line.used ≤ length line.room.items };
}

impl LineOctets {
    /// No octets.
    pub fn new(alloc: Global) -> Self
        ensures { result ≡ [] }
    {
        LineOctets {
            room: Vec::new(alloc),
            used: 0,
        }
    }

    /// Takes the octets away. The room stays.
    pub fn clear(&mut self)
        ensures { self.new ≡ [] }
    {
        self.used = 0;
    }

    /// The octets.
    pub fn as_slice(&self) -> &[u8]
        ensures { result.now ≡ self.now }
    {
        &self.room.as_slice()[..self.used]
    }

    /// Appends octets.
    #[inline(always)]
    pub fn append(&mut self, octets: &[u8]) -> Result<(), AllocError>
        ensures ok { OnOk result (self.new ≡ self.old ++ octets.now) }
        ensures err { OnErr result (self.new ≡ self.old) }
    {
        make_room(&mut self.room, self.used, octets.len())?;
        self.used = place(octets, self.room.as_mut_slice(), self.used);
        Ok(())
    }

    /// Appends a number in decimal.
    #[inline(always)]
    pub fn append_number(&mut self, number: u64) -> Result<(), AllocError>
        ensures { OnOk result (self.new ≡ self.old ++ decimal number) }
    {
        make_room(&mut self.room, self.used, MOST_DIGITS)?;
        self.used = place_decimal(number, self.room.as_mut_slice(), self.used);
        Ok(())
    }

    /// Appends an IPv4 address: four decimal numbers joined by dots.
    #[inline(always)]
    pub fn append_ipv4(&mut self, address: &[u8; 4]) -> Result<(), AllocError>
        ensures { OnOk result (self.new ≡ self.old ++ ipv4_text address.now) }
    {
        make_room(&mut self.room, self.used, MOST_ADDRESS_OCTETS)?;
        self.used = place_ipv4(address, self.room.as_mut_slice(), self.used);
        Ok(())
    }
}

impl Write for LineOctets {
    ghost contents = { λ line. Some line };

    fn write(&mut self, buf: &[u8]) -> io::Result<usize> {
        self.append(buf)?;
        Ok(buf.len())
    }

    fn flush(&mut self) -> io::Result<()> {
        Ok(())
    }

    fn write_all(&mut self, buf: &[u8]) -> io::Result<()> {
        self.append(buf)?;
        Ok(())
    }
}

// Makes room for so many octets after those that are used.
#[inline(always)]
fn make_room(room: &mut Vec<u8>, used: usize, count: usize) -> Result<(), AllocError>
    requires { used ≤ vec_len room.old }
    ensures kept { take used room.new.items ≡ take used room.old.items }
    ensures longer { used ≤ vec_len room.new }
    ensures room { OnOk result (used + count ≤ vec_len room.new) }
{
    if count <= room.len() - used {
        return Ok(());
    }
    lengthen(room, count)
}

// Lengthens the room by so many octets at least.
#[cold]
#[inline(never)]
fn lengthen(room: &mut Vec<u8>, count: usize) -> Result<(), AllocError>
    ensures kept { take (vec_len room.old) room.new.items ≡ room.old.items }
    ensures longer { vec_len room.old ≤ vec_len room.new }
    ensures room { OnOk result (vec_len room.old + count ≤ vec_len room.new) }
{
    match room.len().checked_add(count.max(LEAST_ROOM)) {
        Some(length) => room.resize(length, 0),
        None => Err(AllocError),
    }
}
