//! A sink that takes no more than some records.

use ipfix_message::DataRecord;
use ipfix_session::Sink;
use std::alloc::Global;

/// A sink that takes no more than some records.
#[derive(Drop)]
pub struct Narrow {
    pub room: usize,
    pub records: Vec<DataRecord>,
    refused: u64,
}

impl Narrow {
    /// A sink that takes this many records.
    pub fn new(alloc: Global, room: usize) -> Self {
        Narrow {
            room,
            records: Vec::new(alloc),
            refused: 0,
        }
    }
}

impl Sink for Narrow {
    ghost use Rattle.std.specs.Prelude.{◌≡◌, ◌++◌, ◌∷◌, []};

    ghost seen = { record { took = λ before item after. after.records.items ≡ before.records.items ++ item ∷ []; refused = λ s. s.refused } };

    fn put(&mut self, item: DataRecord) -> Result<(), DataRecord> {
        if self.records.len() >= self.room {
            self.refused = self.refused.saturating_add(1);
            return Err(item);
        }
        match self.records.push(item) {
            Ok(()) => Ok(()),
            Err(failed) => {
                self.refused = self.refused.saturating_add(1);
                Err(failed.value)
            }
        }
    }
}
