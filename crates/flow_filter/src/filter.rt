//! Filters of records.

ghost use Rattle.std.specs.Prelude.{◌≡◌};
ghost use Rattle.flow_filter.specs.Conditions as conditions;

use crate::condition::Condition;
use ipfix_message::DataRecord;

/// Which records are counted: those for which all conditions hold. Without a condition all are.
#[derive(Debug, Drop)]
pub struct Filter {
    pub conditions: Vec<Condition>,
}

impl Filter {
    /// Whether all conditions hold for a record.
    pub fn passes(&self, data_record: &DataRecord) -> bool
        ensures { result ≡ conditions.passes self.now data_record.now }
    {
        self.conditions
            .iter()
            .all(|condition| condition.holds(data_record))
    }

    /// Whether a record is counted: it is one of an options template (RFC 7011, section 3.4.2), or passes.
    pub fn counts(&self, data_record: &DataRecord) -> bool
        ensures { result ≡ conditions.is_counted self.now data_record.now }
    {
        data_record.scope > 0 || self.passes(data_record)
    }
}
