//! What a plan allows, in words.

ghost use Rattle.std.specs.Prelude.{◌≡◌};
ghost use Rattle.input_sources.specs.PlaceLines.{built_in_words as words_of_built_in, file_words as words_of_files, kind_words as words_of_kind, rule_words as words_of_rule};

use element_registry::Elements;
use flow_plan::PlanKey;
use flow_table::PlanFault;

/// What a plan allows where it has the fault: with files of elements more may be keys and counters.
pub fn rule_words(elements: &Elements, fault: PlanFault) -> &'static str
    ensures { result.now ≡ words_of_rule elements.now fault }
{
    match elements.entries() {
        [] => built_in_words(fault),
        [..] => file_words(fault),
    }
}

// What it allows of built-in elements.
fn built_in_words(fault: PlanFault) -> &'static str
    ensures { result.now ≡ words_of_built_in fault }
{
    match fault {
        PlanFault::Length => "must be 1 to 4294967295",
        PlanFault::Spread => "must be 1 to 4096",
        PlanFault::KeyCount => "at most 8",
        PlanFault::KeyKind => {
            ": only elements known as unsigned numbers or addresses (IPv4, IPv6, MAC) may be keys"
        }
        PlanFault::Prefix =>
            ": only IPv4 addresses take a prefix, 0 to 32, and IPv6 addresses, 0 to 128",
        PlanFault::CounterCount => "must be 1 to 4",
        PlanFault::CounterKind => {
            ": only octetDeltaCount, packetDeltaCount, deltaFlowCount, postOctetDeltaCount, postPacketDeltaCount, droppedOctetDeltaCount and droppedPacketDeltaCount may be counters, and with totals = \"as-deltas\" octetTotalCount (e0.85) and packetTotalCount (e0.86)"
        }
        PlanFault::Repeated => " stands twice",
        PlanFault::OutOfMemory => ": out of memory",
    }
}

// What it allows where files name elements, too.
fn file_words(fault: PlanFault) -> &'static str
    ensures { result.now ≡ words_of_files fault }
{
    match fault {
        PlanFault::KeyKind => {
            ": only elements known as unsigned numbers, addresses (IPv4, IPv6, MAC) or booleans may be keys"
        }
        PlanFault::Prefix => {
            ": only sourceIPv4Address and destinationIPv4Address take a prefix, 0 to 32, and sourceIPv6Address and destinationIPv6Address, 0 to 128"
        }
        PlanFault::CounterKind => {
            ": only octetDeltaCount, packetDeltaCount, deltaFlowCount, postOctetDeltaCount, postPacketDeltaCount, droppedOctetDeltaCount, droppedPacketDeltaCount and elements of files with an unsigned type and the semantics deltaCounter may be counters, and with totals = \"as-deltas\" octetTotalCount (e0.85) and packetTotalCount (e0.86); another total is none: adding a flow's totals up counts it twice"
        }
        _ => built_in_words(fault),
    }
}

/// What the value of a key is not.
pub fn kind_words(key: PlanKey) -> &'static str
    ensures { result.now ≡ words_of_kind key }
{
    match key {
        PlanKey::IntervalMs => "not an integer from 1 to 4294967295",
        PlanKey::MaxSpread => "not an integer from 1 to 4096",
        PlanKey::Method => "not \"start\", \"end\", \"mid\", \"uniform\" or \"proportional\"",
        PlanKey::Keys | PlanKey::Counters => "not an array of texts",
        PlanKey::Times => "not \"basic\" or \"all\"",
        PlanKey::Totals => "not \"refused\" or \"as-deltas\"",
    }
}
