//! The digest of the front of a text, whose length is known only at its end.

ghost use Rattle.std.specs.Prelude.{◌≡◌, ◌≤◌, ◌+◌, ◌++◌, [], length, max, take, IfSome, IfNone, OnOk};
ghost use Rattle.sha2.specs.Sha256.{sha256};
ghost use Rattle.input_digests.specs.FrontDigests.{HasRead, HashesHeld, IfRead, IfCounted, MayBeUnknown};

use crate::held_octets::HeldOctets;
use sha2::{Digest, Sha256};
use std::alloc::{AllocError, Global};

/// The octets at the end of a text that may turn out not to count: those of two reads.
pub const MOST_OPEN: usize = 131072;

// Some octets are hashed before a piece makes them more than these.
const MOST_HELD: usize = 262144;

/// The SHA-256 of the front of a text that comes in pieces, where only its end tells how many of its
/// octets count. It holds the last [`MOST_OPEN`] octets of the text or more, 262,144 if the pieces are of at
/// most 131,072; but no octet that is known to count.
#[derive(Drop)]
pub struct FrontDigest {
    hasher: Sha256,
    hashed: u64,
    held: HeldOctets,
}

impl FrontDigest {
    /// Of a text of which nothing was read. It takes no memory before the first piece.
    pub fn new(alloc: Global) -> Self
        ensures { HasRead result 0 [] }
    {
        FrontDigest {
            hasher: Sha256::new(),
            hashed: 0,
            held: HeldOctets::new(alloc),
        }
    }

    /// Reads on in the text. An `Err` is memory that couldn't be had: the piece is lost.
    pub fn read(&mut self, piece: &[u8]) -> Result<(), AllocError>
        ensures { OnOk result
            (IfRead self.old (λ sure text. HasRead self.new sure (text ++ piece.now))) }
    {
        self.make_room(piece.len());
        self.held.append(piece)?;
        Ok(())
    }

    // Hashes what surely counts, if with so many octets more there were too many to hold.
    fn make_room(&mut self, coming: usize)
        ensures { IfRead self.old (λ sure text. HasRead self.new sure text) }
    {
        let held = self.held.as_slice().len();
        if held > MOST_OPEN && held.saturating_add(coming) > MOST_HELD {
            self.hash_held(held - MOST_OPEN);
        }
    }

    /// Takes it that the first octets of the text, so many of them, count: those that were read are hashed, and no
    /// memory is kept for them.
    pub fn settle(&mut self, octets: u64)
        ensures { IfRead self.old (λ sure text. HasRead self.new (max sure octets) text) }
    {
        let held = self.held.as_slice().len();
        let due = octets.saturating_sub(self.hashed).min(held as u64) as usize;
        self.hash_held(due);
        self.held.free_room();
    }

    // Hashes so many of the octets that are held.
    fn hash_held(&mut self, due: usize)
        requires { due ≤ length self.old.held }
        ensures moved { HashesHeld self.old self.new due }
        ensures length { length self.new.held + due ≡ length self.old.held }
    {
        self.hasher.update(&self.held.as_slice()[..due]);
        self.hashed = self.hashed.saturating_add(due as u64);
        self.held.remove_front(due);
    }

    /// The digest of the first octets of the text, so many of them. `None` if the text has fewer, or if these are
    /// fewer than are known to count, or the text has [`MOST_OPEN`] more. A text has less than 2^64 octets.
    pub fn finish(self, octets: u64) -> Option<[u8; 32]>
        ensures found { IfCounted self (λ _ text.
            IfSome result (λ sha. sha ≡ sha256 (take octets text))) }
        ensures within { IfCounted self (λ _ text. IfSome result (λ _. octets ≤ length text)) }
        ensures none { IfCounted self (λ sure text.
            IfNone result (MayBeUnknown octets sure text)) }
    {
        let FrontDigest {
            mut hasher,
            hashed,
            held,
        } = self;
        let rest = octets.checked_sub(hashed)?;
        let held = held.as_slice();
        if rest > held.len() as u64 {
            return None;
        }
        hasher.update(&held[..rest as usize]);
        Some(hasher.finalize())
    }
}
