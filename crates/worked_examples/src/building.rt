//! Texts that are computed: headers, and messages of any number of flows.

use crate::flows::TEMPLATE_256;
use std::alloc::{AllocError, Global};

/// A flow as a record of template 256: both times in milliseconds, and its octets. Its address is
/// 192.0.2.1.
#[derive(Clone, Copy)]
pub struct Flow {
    pub start: u64,
    pub end: u64,
    pub octets: u32,
}

/// The header of a message with this length.
pub fn header(length: u16, sequence: u32, domain: u32) -> [u8; 16] {
    let [a, b] = length.to_be_bytes();
    let [c, d, e, f] = sequence.to_be_bytes();
    let [g, h, i, j] = domain.to_be_bytes();
    [0, 10, a, b, 0x65, 0x53, 0xf1, 0, c, d, e, f, g, h, i, j]
}

/// The octets of messages, one after another.
pub fn text_of(alloc: Global, messages: &[&[u8]]) -> Result<Vec<u8>, AllocError> {
    let mut octets = Vec::new(alloc);
    for message in messages {
        octets.extend_from_slice(message)?;
    }
    Ok(octets)
}

/// A length field. One that is too long for it is written as 65535.
fn length_of(octets: usize) -> u16 {
    u16::try_from(octets).unwrap_or(u16::MAX)
}

/// Appends a record of template 256.
fn push_flow(out: &mut Vec<u8>, flow: Flow) -> Result<(), AllocError> {
    out.extend_from_slice(&flow.start.to_be_bytes())?;
    out.extend_from_slice(&flow.end.to_be_bytes())?;
    out.extend_from_slice(&[192, 0, 2, 1])?;
    out.extend_from_slice(&flow.octets.to_be_bytes())
}

/// A message with template 256 and these flows, at most 2,728 of them: its header, the template set,
/// and a data set with a record each.
pub fn message_of_flows(
    alloc: Global,
    sequence: u32,
    domain: u32,
    flows: &[Flow],
) -> Result<Vec<u8>, AllocError> {
    let mut records = Vec::new(alloc);
    for flow in flows {
        push_flow(&mut records, *flow)?;
    }
    let template = &TEMPLATE_256[16..];
    let data_set = length_of(records.len().saturating_add(4));
    let length = length_of(records.len().saturating_add(44));
    let mut message = Vec::new(alloc);
    message.extend_from_slice(&header(length, sequence, domain))?;
    message.extend_from_slice(template)?;
    message.extend_from_slice(&[1, 0])?;
    message.extend_from_slice(&data_set.to_be_bytes())?;
    message.extend_from_slice(&records)?;
    Ok(message)
}
