//! The aggregate of data records (RFC 7015, section 5).

ghost use Rattle.std.specs.Prelude.{◌≡◌, []};
ghost use Rattle.flow_table.specs.SameTables.{row_value, value_of};

use crate::missing::Missing;
use crate::tally::Tally;
use ipfix_elements::Cell;
use std::alloc::Global;

/// What the flows with the same key contribute to an interval: an aggregated flow (RFC 7015, section 2).
#[derive(Debug, Drop)]
pub struct Row {
    /// The interval, counted from that of 1970-01-01 UTC.
    pub interval: u64,
    /// A cell for each key, in the order of the plan.
    pub key: Vec<Cell>,
    /// The sum of the shares of each counter, in the order of the plan.
    pub sums: Vec<u64>,
    /// The number of flows that contribute, also with shares of 0 (the non-conservative count of
    /// original flows of RFC 7015, section 5.2.1).
    pub flows: u64,
}

impl Row {
    /// A row of no flows, with no cell and no sum: one to be filled ([`FlatTable::row_at`]).
    ///
    /// [`FlatTable::row_at`]: crate::FlatTable::row_at
    pub fn empty(alloc: Global) -> Row
        ensures { value_of result ≡ row_value 0 [] [] 0 }
    {
        Row {
            interval: 0,
            key: Vec::new(alloc),
            sums: Vec::new(alloc),
            flows: 0,
        }
    }
}

/// Which row of a table.
#[derive(Debug, Drop)]
pub struct RowPlace {
    /// The interval, counted from that of 1970-01-01 UTC.
    pub interval: u64,
    /// A cell for each key, in the order of the plan.
    pub key: Vec<Cell>,
}

/// The rows ascend by interval, and then by the cells of the key in the order of the plan.
#[derive(Debug, Drop)]
pub struct Table {
    /// A row for each interval and key that some flow contributes to.
    pub rows: Vec<Row>,
    /// All records by class.
    pub tally: Tally,
    /// What the untimed and unkeyed ones lack, and the used ones' counters that are missing.
    pub missing: Missing,
}
