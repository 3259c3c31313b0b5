//! Where the records of a session go.

ghost use Rattle.std.specs.Prelude.{◌≡◌, ◌++◌, ◌∷◌, [], OnOk, OnErr, IfErr};
ghost use Rattle.ipfix_session.specs.Sources.{one_more};

use ipfix_message::DataRecord;
use std::alloc::Global;

/// Takes data records, or gives them back. Its count stops at `u64::MAX`.
pub trait Sink {
    ghost use Rattle.ipfix_session.specs.Sinks.{SinkView};

    /// What contracts see of it: what a record that it took changes, and how many records it gave back.
    ghost seen: { SinkView Self };

    /// Takes a record, or gives it back.
    fn put(&mut self, item: DataRecord) -> Result<(), DataRecord>
        ensures ok { OnOk result (seen.took self.old item self.new) }
        ensures none_refused { OnOk result (seen.refused self.new ≡ seen.refused self.old) }
        ensures back { IfErr result (λ given. given ≡ item) }
        ensures refused { OnErr result (seen.refused self.new ≡ one_more (seen.refused self.old)) };
}

/// A sink that keeps the records.
#[derive(Drop)]
pub struct VecSink {
    /// The records that it took, in order.
    pub records: Vec<DataRecord>,
    /// How many it gave back, because memory ran out.
    pub refused: u64,
}

impl VecSink {
    pub fn new(alloc: Global) -> Self
        ensures records { result.records.items ≡ [] }
        ensures refused { result.refused ≡ 0 }
    {
        VecSink {
            records: Vec::new(alloc),
            refused: 0,
        }
    }
}

impl Sink for VecSink {
    ghost seen = { record {
      took = λ before item after. after.records.items ≡ before.records.items ++ item ∷ [];
      refused = λ s. s.refused;
    } };

    fn put(&mut self, item: DataRecord) -> Result<(), DataRecord>
        ensures ok { OnOk result (self.new.records.items ≡ self.old.records.items ++ item ∷ []) }
        ensures none_refused { OnOk result (self.new.refused ≡ self.old.refused) }
        ensures back { IfErr result (λ given. given ≡ item) }
        ensures refused { OnErr result (self.new.refused ≡ one_more self.old.refused) }
        ensures kept { OnErr result (self.new.records.items ≡ self.old.records.items) }
    {
        match self.records.push(item) {
            Ok(()) => Ok(()),
            Err(failed) => {
                self.refused = self.refused.saturating_add(1);
                Err(failed.value)
            }
        }
    }
}
