//! A sink that appends what a session knows to each record, and before it what options records told.

ghost use Rattle.std.specs.Prelude.{◌≡◌, None};

use crate::context_fields::ContextFields;
use crate::shortage::Shortage;
use exporter_options::ToldFields;
use ipfix_message::DataRecord;
use ipfix_session::Sink;

/// Puts each record into another sink: after its own fields come those of what options records before it told, and
/// then the context's.
///
/// Once a record could not be put it gives all others back; what it took then is of no use.
#[derive(Drop)]
pub struct ContextSink<'a, K> {
    /// What options records told so far.
    pub told: ToldFields,
    context: ContextFields<'a>,
    /// Why a record could not be put, if one could not.
    pub lost: Option<Shortage>,
    /// How many records it gave back. The count stops at `u64::MAX`.
    pub refused: u64,
    /// The sink that it puts them into.
    pub sink: K,
}

impl<'a, K> ContextSink<'a, K> {
    /// A sink for the records of a session with this context.
    pub fn new(told: ToldFields, context: ContextFields<'a>, sink: K) -> Self
        ensures empty { (result.lost ≡ None) × (result.refused ≡ 0) }
        ensures given { (result.told ≡ told) × (result.context ≡ context.entry) × (result.sink ≡ sink) }
    {
        ContextSink {
            told,
            context,
            lost: None,
            refused: 0,
            sink,
        }
    }
}

impl<'a, K: Sink> Sink for ContextSink<'a, K> {
    ghost use Rattle.std.specs.Prelude.{◌≡◌, ◌⊎◌, None, IsSome};
    ghost use Rattle.exporter_options.specs.Beside.{asked_next, with_told};
    ghost use Rattle.flow_collect.specs.Contexts.{with_context};

    ghost seen = { record {
      took = λ before item after. IsSome after.lost
          ⊎ ((before.lost ≡ None) × (after.told ≡ asked_next before.told item) × (after.context ≡ before.context)
          × K.seen.took before.sink (with_context before.context (with_told before.told item)) after.sink);
      refused = λ s. s.refused;
    } };

    fn put(&mut self, item: DataRecord) -> Result<(), DataRecord> {
        if self.lost.is_some() {
            self.refused = self.refused.saturating_add(1);
            return Err(item);
        }
        let mut item = item;
        if self.told.append(&mut item).is_err() || self.context.append(&mut item).is_err() {
            self.lost = Some(Shortage::OutOfMemory);
        } else if self.sink.put(item).is_err() {
            self.lost = Some(Shortage::NoThread);
        }
        Ok(())
    }
}
