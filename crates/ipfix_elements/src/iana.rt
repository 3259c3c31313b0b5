//! The numbers of elements that collecting and aggregation read or write (IANA, "IPFIX Information
//! Elements").

/// Number of octetDeltaCount.
pub const OCTET_DELTA_COUNT: u16 = 1;

/// Number of packetDeltaCount.
pub const PACKET_DELTA_COUNT: u16 = 2;

/// Number of deltaFlowCount.
pub const DELTA_FLOW_COUNT: u16 = 3;

/// Number of sourceIPv4Address.
pub const SOURCE_IPV4_ADDRESS: u16 = 8;

/// Number of destinationIPv4Address.
pub const DESTINATION_IPV4_ADDRESS: u16 = 12;

/// Number of postOctetDeltaCount.
pub const POST_OCTET_DELTA_COUNT: u16 = 23;

/// Number of postPacketDeltaCount.
pub const POST_PACKET_DELTA_COUNT: u16 = 24;

/// Number of sourceIPv4Prefix.
pub const SOURCE_IPV4_PREFIX: u16 = 44;

/// Number of destinationIPv4Prefix.
pub const DESTINATION_IPV4_PREFIX: u16 = 45;

/// Number of droppedOctetDeltaCount.
pub const DROPPED_OCTET_DELTA_COUNT: u16 = 132;

/// Number of droppedPacketDeltaCount.
pub const DROPPED_PACKET_DELTA_COUNT: u16 = 133;

/// Number of flowStartSeconds.
pub const FLOW_START_SECONDS: u16 = 150;

/// Number of flowEndSeconds.
pub const FLOW_END_SECONDS: u16 = 151;

/// Number of flowStartMilliseconds.
pub const FLOW_START_MILLISECONDS: u16 = 152;

/// Number of flowEndMilliseconds.
pub const FLOW_END_MILLISECONDS: u16 = 153;

/// Number of originalFlowsPresent.
pub const ORIGINAL_FLOWS_PRESENT: u16 = 375;
