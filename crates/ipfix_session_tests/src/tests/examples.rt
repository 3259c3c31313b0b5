//! The worked examples of the profile: texts of messages, and what they give.

use ipfix_message::DataRecord;
use std::test::*;
use worked_examples::{faults, flows, sequences, templates, values};

/// A text of messages, and what they give.
#[derive(Clone, Copy)]
pub struct Example {
    pub name: &'static str,
    pub messages: &'static [&'static [u8]],
    /// How many are whole, and their data records, skipped sets, unknown sets and ignored withdrawals.
    pub counts: [u64; 5],
    /// Each domain with its records, how many were lost, and the steps backward.
    pub domains: &'static [(u32, u64, u64, u64)],
    /// The number of the fault.
    pub fault: Option<u8>,
}

// A message that is refused.
const fn refused(name: &'static str, messages: &'static [&'static [u8]], fault: u8) -> Example {
    Example {
        name,
        messages,
        counts: [0, 0, 0, 0, 0],
        domains: &[],
        fault: Some(fault),
    }
}

// A text without a fault.
const fn accepted(
    name: &'static str,
    messages: &'static [&'static [u8]],
    counts: [u64; 5],
    domains: &'static [(u32, u64, u64, u64)],
) -> Example {
    Example {
        name,
        messages,
        counts,
        domains,
        fault: None,
    }
}

pub fn examples() -> [Example; 45] {
    [
        accepted("empty input", &[], [0, 0, 0, 0, 0], &[]),
        accepted(
            "one flow",
            &[flows::ONE_FLOW],
            [1, 1, 0, 0, 0],
            &[(1, 1, 0, 0)],
        ),
        accepted(
            "one flow with set padding",
            &[flows::ONE_FLOW_WITH_SET_PADDING],
            [1, 1, 0, 0, 0],
            &[(1, 1, 0, 0)],
        ),
        accepted(
            "variable lengths",
            &[templates::VARIABLE_LENGTHS],
            [1, 4, 0, 0, 0],
            &[(1, 4, 0, 0)],
        ),
        accepted(
            "template of one domain only",
            &[
                flows::TEMPLATE_256,
                flows::FLOW_OF_DOMAIN_1,
                flows::FLOW_OF_DOMAIN_2,
            ],
            [3, 1, 0, 1, 0],
            &[(1, 1, 0, 0), (2, 0, 0, 0)],
        ),
        accepted(
            "empty set in force once",
            &[templates::EMPTY_SET_IN_FORCE_ONCE],
            [1, 0, 0, 0, 0],
            &[(1, 0, 0, 0)],
        ),
        refused("changed template", &[templates::CHANGED_TEMPLATE], 9),
        accepted(
            "options template, withdrawal, unknown set",
            &[templates::OPTIONS_TEMPLATE_WITHDRAWAL_UNKNOWN_SET],
            [1, 1, 0, 1, 0],
            &[(1, 1, 0, 0)],
        ),
        accepted(
            "options template",
            &[templates::OPTIONS_TEMPLATE],
            [1, 1, 0, 0, 0],
            &[(1, 1, 0, 0)],
        ),
        refused(
            "zero-length template",
            &[templates::ZERO_LENGTH_TEMPLATE],
            8,
        ),
        accepted(
            "withdrawal of nothing",
            &[templates::WITHDRAWAL_OF_NOTHING],
            [1, 0, 0, 0, 1],
            &[(1, 0, 0, 0)],
        ),
        accepted(
            "IPv6 and MAC address",
            &[values::IPV6_AND_MAC_ADDRESS],
            [1, 1, 0, 0, 0],
            &[(1, 1, 0, 0)],
        ),
        accepted(
            "address in three octets",
            &[values::ADDRESS_IN_THREE_OCTETS],
            [1, 1, 0, 0, 0],
            &[(1, 1, 0, 0)],
        ),
        accepted(
            "address of variable length",
            &[values::VARIABLE_LENGTH_ADDRESS],
            [1, 3, 0, 0, 0],
            &[(1, 3, 0, 0)],
        ),
        accepted(
            "reduced-size numbers",
            &[values::REDUCED_SIZE_NUMBERS],
            [1, 1, 0, 0, 0],
            &[(1, 1, 0, 0)],
        ),
        accepted(
            "lengths of no value",
            &[values::LENGTHS_OF_NO_VALUE],
            [1, 1, 0, 0, 0],
            &[(1, 1, 0, 0)],
        ),
        accepted(
            "unknown elements",
            &[values::UNKNOWN_ELEMENTS],
            [1, 1, 0, 0, 0],
            &[(1, 1, 0, 0)],
        ),
        accepted(
            "original flows and padding",
            &[values::ORIGINAL_FLOWS_AND_PADDING],
            [1, 1, 0, 0, 0],
            &[(1, 1, 0, 0)],
        ),
        accepted(
            "each element",
            &[values::EACH_ELEMENT],
            [1, 1, 0, 0, 0],
            &[(1, 1, 0, 0)],
        ),
        accepted(
            "export of one flow",
            &[values::EXPORT_TEMPLATE, values::EXPORT_ROW],
            [2, 1, 0, 0, 0],
            &[(0, 1, 0, 0)],
        ),
        refused("message length 15", &[faults::MESSAGE_LENGTH_15], 2),
        refused("version 9", &[faults::VERSION_9], 1),
        refused(
            "version 9 and length 15",
            &[faults::VERSION_9_AND_LENGTH_15],
            1,
        ),
        refused(
            "set length below its header",
            &[faults::SET_LENGTH_BELOW_HEADER],
            4,
        ),
        refused(
            "set length past the message",
            &[faults::SET_LENGTH_PAST_MESSAGE],
            4,
        ),
        refused("cut set header", &[faults::SET_HEADER_CUT], 3),
        accepted(
            "message without sets",
            &[faults::MESSAGE_WITHOUT_SETS],
            [1, 0, 0, 0, 0],
            &[(1, 0, 0, 0)],
        ),
        accepted(
            "skipped set",
            &[faults::SKIPPED_SET],
            [1, 0, 1, 0, 0],
            &[(1, 0, 0, 0)],
        ),
        refused("template id 255", &[faults::TEMPLATE_ID_255], 5),
        refused(
            "template id 255 before a set length of 3",
            &[faults::TEMPLATE_ID_255_AND_SET_LENGTH_3],
            5,
        ),
        refused("cut template", &[faults::TEMPLATE_CUT], 6),
        refused(
            "template cut before its scope",
            &[faults::TEMPLATE_CUT_BEFORE_SCOPE],
            6,
        ),
        refused("no scope field", &[faults::SCOPE_ZERO], 7),
        refused(
            "more scope fields than fields",
            &[faults::SCOPE_ABOVE_FIELDS],
            7,
        ),
        refused("record cut", &[faults::RECORD_CUT], 10),
        refused(
            "record cut in a length",
            &[faults::RECORD_CUT_IN_LENGTH],
            10,
        ),
        accepted(
            "data set without records",
            &[faults::DATA_SET_WITHOUT_RECORDS],
            [1, 0, 0, 0, 0],
            &[(1, 0, 0, 0)],
        ),
        accepted(
            "data set shorter than a record",
            &[faults::DATA_SET_SHORTER_THAN_A_RECORD],
            [1, 0, 0, 0, 0],
            &[(1, 0, 0, 0)],
        ),
        accepted(
            "two flows",
            &[flows::ONE_FLOW, flows::NEXT_FLOW],
            [2, 2, 0, 0, 0],
            &[(1, 2, 0, 0)],
        ),
        Example {
            name: "one flow, then a cut message",
            messages: &[flows::ONE_FLOW, flows::CUT_FLOW],
            counts: [1, 1, 0, 0, 0],
            domains: &[(1, 1, 0, 0)],
            fault: Some(14),
        },
        Example {
            name: "a flow before a wrong version",
            messages: &[flows::ONE_FLOW, faults::VERSION_9, flows::NEXT_FLOW],
            counts: [1, 1, 0, 0, 0],
            domains: &[(1, 1, 0, 0)],
            fault: Some(1),
        },
        accepted(
            "sequence numbers that wrap",
            &[
                sequences::TWO_BEFORE_THE_WRAP,
                sequences::ONE_AFTER_THE_WRAP,
            ],
            [2, 3, 0, 0, 0],
            &[(1, 3, 0, 0)],
        ),
        accepted(
            "a gap, and a step backward",
            &[
                sequences::TWO_AT_0,
                sequences::ONE_AT_5,
                sequences::ONE_BACK_AT_1,
            ],
            [3, 4, 0, 0, 0],
            &[(1, 4, 3, 1)],
        ),
        accepted(
            "the greatest gap",
            &[sequences::ONE_AT_0, sequences::GREATEST_GAP],
            [2, 2, 0, 0, 0],
            &[(1, 2, 2147483647, 0)],
        ),
        accepted(
            "the least step backward",
            &[sequences::ONE_AT_0, sequences::LEAST_STEP_BACKWARD],
            [2, 2, 0, 0, 0],
            &[(1, 2, 0, 1)],
        ),
    ]
}

fn is_same(left: &DataRecord, right: &DataRecord) -> bool {
    let mut fields = left.fields.iter().zip(right.fields.iter());
    left.domain == right.domain
        && left.export_time == right.export_time
        && left.template == right.template
        && left.scope == right.scope
        && left.fields.len() == right.fields.len()
        && fields.all(|(left, right)| left.element == right.element && left.octets == right.octets)
}

/// Whether records are the same, in their order.
pub fn are_same(left: &[DataRecord], right: &[DataRecord]) -> bool {
    left.len() == right.len()
        && left
            .iter()
            .zip(right)
            .all(|(left, right)| is_same(left, right))
}
