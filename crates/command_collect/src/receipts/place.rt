//! Where a receipt is put.

use std::io;

/// Where a receipt is put, whole.
pub trait ReceiptPlace {
    ghost use Rattle.std.specs.Prelude.{ℕ, List, OnOk};

    /// Whether a receipt of this text was put there.
    ghost holds: { Self → List ℕ → Type 0 };

    /// Puts a receipt there. An `Err` puts none.
    fn put(&mut self, text: &[u8]) -> io::Result<()>
        ensures { OnOk result (holds self.new text.now) };
}
