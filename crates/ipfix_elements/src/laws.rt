//! Laws of elements and cells. Each is a function that does nothing, and its contract is the law.

ghost use Rattle.std.specs.Prelude.{◌≡◌, codes, length};
ghost use Rattle.std.specs.Cmp.{IsTotalOrder};
ghost use Rattle.std.specs.declared.cmp.Ordering.TheVariants.{Equal};
ghost use Rattle.ipfix_elements.specs.Cells.{cell_cmp};
ghost use Rattle.ipfix_elements.specs.Elements.{elements, IsKnownAs};
ghost use Rattle.ipfix_elements.specs.declared.cell.Cell.{Cell};
ghost use Rattle.ipfix_elements.specs.declared.iana.TheConstants.{OCTET_DELTA_COUNT, PACKET_DELTA_COUNT, DELTA_FLOW_COUNT, SOURCE_IPV4_ADDRESS, DESTINATION_IPV4_ADDRESS, POST_OCTET_DELTA_COUNT, POST_PACKET_DELTA_COUNT, SOURCE_IPV4_PREFIX, DESTINATION_IPV4_PREFIX, DROPPED_OCTET_DELTA_COUNT, DROPPED_PACKET_DELTA_COUNT, FLOW_START_SECONDS, FLOW_END_SECONDS, FLOW_START_MILLISECONDS, FLOW_END_MILLISECONDS, ORIGINAL_FLOWS_PRESENT};
ghost use Rattle.ipfix_elements.specs.declared.kind.Kind.TheVariants.{Unsigned, Ipv4, Seconds, Millis};
ghost use Rattle.ipfix_elements.specs.declared.kind.Width.TheVariants.{Eight};

use crate::cell::Cell;

/// The order of cells is total, and only a cell itself is equal to it.
pub fn cell_order()
    ensures order { (a b : Cell) → ⟦<Cell as Ord>⟧.cmp a b ≡ cell_cmp a b }
    ensures total { IsTotalOrder cell_cmp }
    ensures equal { (a b : Cell) → cell_cmp a b ≡ Equal → a ≡ b }
{}

/// The elements that collecting and aggregation read or write have the numbers, names and kinds of
/// IANA's registry ("IPFIX Information Elements"), and 35 elements are known by name.
#[tactic(auto, unfolding(crate::specs::Elements::elements))]
pub fn element_numbers()
    ensures known { length elements ≡ 35 }
    ensures octet_delta_count { IsKnownAs OCTET_DELTA_COUNT
        1 (codes "octetDeltaCount") (Unsigned Eight) }
    ensures packet_delta_count { IsKnownAs PACKET_DELTA_COUNT
        2 (codes "packetDeltaCount") (Unsigned Eight) }
    ensures delta_flow_count { IsKnownAs DELTA_FLOW_COUNT
        3 (codes "deltaFlowCount") (Unsigned Eight) }
    ensures source_ipv4_address { IsKnownAs SOURCE_IPV4_ADDRESS
        8 (codes "sourceIPv4Address") Ipv4 }
    ensures destination_ipv4_address { IsKnownAs DESTINATION_IPV4_ADDRESS
        12 (codes "destinationIPv4Address") Ipv4 }
    ensures post_octet_delta_count { IsKnownAs POST_OCTET_DELTA_COUNT
        23 (codes "postOctetDeltaCount") (Unsigned Eight) }
    ensures post_packet_delta_count { IsKnownAs POST_PACKET_DELTA_COUNT
        24 (codes "postPacketDeltaCount") (Unsigned Eight) }
    ensures source_ipv4_prefix { IsKnownAs SOURCE_IPV4_PREFIX
        44 (codes "sourceIPv4Prefix") Ipv4 }
    ensures destination_ipv4_prefix { IsKnownAs DESTINATION_IPV4_PREFIX
        45 (codes "destinationIPv4Prefix") Ipv4 }
    ensures dropped_octet_delta_count { IsKnownAs DROPPED_OCTET_DELTA_COUNT
        132 (codes "droppedOctetDeltaCount") (Unsigned Eight) }
    ensures dropped_packet_delta_count { IsKnownAs DROPPED_PACKET_DELTA_COUNT
        133 (codes "droppedPacketDeltaCount") (Unsigned Eight) }
    ensures flow_start_seconds { IsKnownAs FLOW_START_SECONDS
        150 (codes "flowStartSeconds") Seconds }
    ensures flow_end_seconds { IsKnownAs FLOW_END_SECONDS
        151 (codes "flowEndSeconds") Seconds }
    ensures flow_start_milliseconds { IsKnownAs FLOW_START_MILLISECONDS
        152 (codes "flowStartMilliseconds") Millis }
    ensures flow_end_milliseconds { IsKnownAs FLOW_END_MILLISECONDS
        153 (codes "flowEndMilliseconds") Millis }
    ensures original_flows_present { IsKnownAs ORIGINAL_FLOWS_PRESENT
        375 (codes "originalFlowsPresent") (Unsigned Eight) }
{}
