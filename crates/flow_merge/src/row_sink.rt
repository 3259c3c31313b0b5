//! The sink of an export.

use crate::merge_fault::MergeFault;
use crate::merging::Merging;
use ipfix_message::DataRecord;
use ipfix_session::Sink;

/// Adds the row of each record. At the first fault it keeps it, and takes no notice of later records:
/// so the session is read to its end, and a fault of its own comes first.
#[derive(Drop)]
pub struct RowSink<'a> {
    pub merging: Merging<'a>,
    pub fault: Option<MergeFault>,
    /// How many records it took notice of. The count stops at `u64::MAX`.
    pub taken: u64,
}

impl Sink for RowSink<'_> {
    ghost use Rattle.flow_merge.specs.RowSink.{TakesRecord};

    ghost seen = { record { took = TakesRecord; refused = λ s. 0 } };

    fn put(&mut self, item: DataRecord) -> Result<(), DataRecord> {
        if self.fault.is_none() {
            self.taken = self.taken.saturating_add(1);
            self.fault = self.merging.add(&item, self.taken).err();
        }
        Ok(())
    }
}
