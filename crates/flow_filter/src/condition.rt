//! Conditions on the value of one element.

ghost use Rattle.std.specs.Prelude.{◌≡◌, IfOk, IfErr};
ghost use Rattle.flow_filter.specs.Conditions as conditions;
ghost use Rattle.flow_filter.specs.declared.value.Value.TheVariants.{Number};
ghost use Rattle.flow_filter.specs.Faults.{texts_of, IsCondition, IsFault, ReadsTexts};

use crate::fault::FilterFault;
use crate::value::{Value, is_comparable, value_in};
use crate::value_range::ValueRange;
use ipfix_elements::{Kind, read_number};
use ipfix_message::DataRecord;
use ipfix_wire::ElementId;
use std::alloc::Global;

/// As many texts a condition has at most; it has one at least.
pub const MAX_TEXTS: usize = 64;

/// On which side of its texts a condition has the values.
#[derive(Clone, Copy, Debug, PartialEq, Eq)]
pub enum Side {
    /// One of the texts says the record's value: not where it has none.
    In,
    /// No text says the record's value, as where it has none.
    NotIn,
}

/// A condition on the value of one element.
#[derive(Debug, Drop)]
pub struct Condition {
    pub element: ElementId,
    /// The kind that the element's fields are read by.
    pub kind: Kind,
    pub side: Side,
    /// What each of its texts says, in their order.
    pub ranges: Vec<ValueRange>,
}

impl Condition {
    /// The condition of an element, by the kind that its fields are read by, and of 1 to 64 texts; or the
    /// first fault.
    pub fn new(
        alloc: Global,
        element: ElementId,
        kind: Kind,
        side: Side,
        texts: &[&str],
    ) -> Result<Condition, FilterFault>
        ensures ok { IfOk result (IsCondition element kind side (texts_of texts.now)) }
        // The first fault, and only that one.
        ensures fault { IfErr result (IsFault kind (texts_of texts.now)) }
    {
        if !is_comparable(kind) {
            return Err(FilterFault::Kind);
        }
        if texts.is_empty() || texts.len() > MAX_TEXTS {
            return Err(FilterFault::Count);
        }
        let ranges = ranges_in(alloc, kind, texts)?;
        Ok(Condition {
            element,
            kind,
            side,
            ranges,
        })
    }

    /// Whether the condition holds for a record: by the first field of its element, and by the octets as
    /// they are, so that a counter is not scaled.
    pub fn holds(&self, data_record: &DataRecord) -> bool
        ensures { result ≡ conditions.holds data_record.now self.now }
    {
        match self.side {
            Side::In => self.is_said(data_record),
            Side::NotIn => !self.is_said(data_record),
        }
    }

    // Whether one of the texts says the value in the first field of the element.
    fn is_said(&self, data_record: &DataRecord) -> bool
        ensures { result ≡ conditions.is_said self.now data_record.now }
    {
        match data_record.fields.find(self.element) {
            Some(octets) => is_value_among(&self.ranges, self.kind, octets),
            None => false,
        }
    }
}

// Whether the value that octets are is among what some texts say. (Numbers go past the value, which has room for an
// address.)
fn is_value_among(ranges: &[ValueRange], kind: Kind, octets: &[u8]) -> bool
    ensures { result ≡ conditions.is_value_among ranges.now kind octets.now }
{
    if let Kind::Unsigned(_) = kind {
        return match read_number(kind, octets) {
            Some(number) => is_number_among(ranges, number),
            None => false,
        };
    }
    match value_in(kind, octets) {
        Some(value) => is_among(ranges, value),
        None => false,
    }
}

// Whether a value is among what some texts say.
fn is_among(ranges: &[ValueRange], value: Value) -> bool
    ensures { result ≡ conditions.is_among ranges.now value }
{
    ranges.iter().any(|range| range.has(value))
}

// Whether a number is among what some texts say.
fn is_number_among(ranges: &[ValueRange], number: u64) -> bool
    ensures { result ≡ conditions.is_among ranges.now (Number number) }
{
    ranges.iter().any(|range| range.has_number(number))
}

// What each of some texts says, or the place of the first that says nothing.
fn ranges_in(alloc: Global, kind: Kind, texts: &[&str]) -> Result<Vec<ValueRange>, FilterFault>
    ensures { ReadsTexts kind (texts_of texts.now) result }
{
    let mut ranges = Vec::new(alloc);
    for (place, text) in texts.iter().enumerate() {
        match ValueRange::read(kind, text) {
            Some(range) => ranges.push(range)?,
            None => return Err(FilterFault::Text { place }),
        }
    }
    Ok(ranges)
}
