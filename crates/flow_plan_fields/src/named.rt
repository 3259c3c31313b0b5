//! Maps and keys by their names.

use flow_maps::MapKey;

/// The enterprise whose elements are the keys of maps: it has numbers for examples (RFC 5612), and is nobody's.
pub const EXAMPLES_PEN: u32 = 32473;

/// As many texts of a plan look something up at most.
pub const MAX_MAP_KEYS: usize = 255;

/// A map that a plan names.
#[derive(Debug, Drop)]
pub struct NamedMap {
    /// As keys name it: letters, digits, `_` and `-`.
    pub name: String,
    /// The path of its file, from the plan's folder.
    pub file: String,
}

/// A key whose value is the number of a map.
#[derive(Debug, Drop)]
pub struct NamedKey {
    /// As the plan writes it.
    pub text: String,
    pub key: MapKey,
}

/// What a plan says of maps.
#[derive(Debug, Drop)]
pub struct PlanMaps {
    /// In the order of the text.
    pub maps: Vec<NamedMap>,
    /// Each once: those of `keys`, and then those of conditions, in the order of the text.
    pub keys: Vec<NamedKey>,
}
