//! A receipt that is kept until its table is written.

ghost use Rattle.std.specs.Prelude.{◌≡◌, None, Some};

use command_collect::ReceiptPlace;
use std::alloc::Global;
use std::io;

/// The text of a receipt, if it was put.
#[derive(Drop)]
pub struct KeptReceipt {
    alloc: Global,
    pub text: Option<Vec<u8>>,
}

impl KeptReceipt {
    /// None was put yet.
    pub fn new(alloc: Global) -> Self
        ensures { result.text ≡ None }
    {
        KeptReceipt { alloc, text: None }
    }
}

impl ReceiptPlace for KeptReceipt {
    ghost use Rattle.std.specs.Option.{option_map};

    ghost holds = { λ kept text. option_map (λ v. v.items) kept.text ≡ Some text };

    fn put(&mut self, text: &[u8]) -> io::Result<()> {
        self.text = Some(Vec::from_slice(self.alloc, text)?);
        Ok(())
    }
}
