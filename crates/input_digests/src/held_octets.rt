//! The octets at the end of a text.

ghost use Rattle.std.specs.Prelude.{◌≡◌, ◌≤◌, ◌++◌, [], length, drop, OnOk};

use std::alloc::{AllocError, Global};
use std::marker::Model;

/// Octets in a row, in no more memory than the most of them wanted.
#[derive(Drop)]
pub struct HeldOctets {
    octets: Vec<u8>,
}

impl Model for HeldOctets {
    ghost use Rattle.std.specs.Prelude.{ℕ, List};

    ghost Value = { List ℕ };

    ghost view = { λ h. h.octets.items };
}

impl HeldOctets {
    /// None of them; no memory is taken.
    pub fn new(alloc: Global) -> Self
        ensures { result ≡ [] }
    {
        HeldOctets {
            octets: Vec::new(alloc),
        }
    }

    pub fn as_slice(&self) -> &[u8]
        ensures { result.now ≡ self.now }
    {
        self.octets.as_slice()
    }

    /// Appends a piece.
    pub fn append(&mut self, piece: &[u8]) -> Result<(), AllocError>
        ensures { OnOk result (self.new ≡ self.old ++ piece.now) }
    {
        self.octets.extend_from_slice(piece)?;
        Ok(())
    }

    /// Removes so many octets from the front.
    pub fn remove_front(&mut self, due: usize)
        requires { due ≤ length self.old }
        ensures { self.new ≡ drop due self.old }
    {
        let count = self.octets.len();
        self.octets.copy_within(due..count, 0);
        self.octets.truncate(count - due);
    }

    /// Gives back the memory that the octets don't need.
    pub fn free_room(&mut self)
        ensures { self.new ≡ self.old }
    {
        self.octets.shrink_to_fit();
    }
}
