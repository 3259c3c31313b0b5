//! What a receipt tells.

ghost use Rattle.std.specs.Prelude.{◌≡◌};
ghost use Rattle.table_receipts.specs.Objects.{interval_name};

/// A file that was read: an input, a file of elements, or one of a map.
#[derive(Drop)]
pub struct FileReceipt {
    /// Its name as it was given: `-` is standard input, and a connection's is ADDRESS:PORT.
    pub name: String,
    /// How many octets of it count.
    pub octets: u64,
    /// The SHA-256 (FIPS 180-4) of these octets.
    pub sha256: [u8; 32],
}

/// What the messages of an observation domain say (RFC 7011, section 3.1).
#[derive(Clone, Copy, Debug, PartialEq, Eq)]
pub struct DomainReceipt {
    pub domain: u32,
    /// Data records that the sequence numbers say were lost.
    pub lost: u64,
    /// How often a sequence number went backward.
    pub backward: u64,
    /// Data records that are neither counted nor lost: those of unknown sets among them.
    pub unaccounted: u64,
    /// Data sets without a template in force.
    pub unknown_sets: u64,
}

/// An input of a table, as far as its messages count.
#[derive(Drop)]
pub struct InputReceipt {
    pub file: FileReceipt,
    /// The messages that count.
    pub messages: u64,
    /// Their data records.
    pub records: u64,
    /// The name of the fault that ended its session, if one did.
    pub fault: Option<String>,
    /// Its observation domains, in the order in which they appeared.
    pub domains: Vec<DomainReceipt>,
    pub exporter: ExporterReceipt,
}

/// Who exported an input.
#[derive(Debug, Drop)]
pub enum ExporterReceipt {
    /// The plan doesn't ask for it, and the receipt says nothing of it.
    NotAsked,
    /// The plan asks for it, and it was not known.
    Unknown,
    /// Its address, as tables have it under the key `exporter`.
    Address(String),
}

/// How many data records of all inputs are of each class.
#[derive(Clone, Copy, Debug, PartialEq, Eq)]
pub struct RecordCounts {
    /// Records that contribute to the table.
    pub used: u64,
    /// Records of options templates.
    pub options: u64,
    /// Records without a start or an end.
    pub untimed: u64,
    /// Records that end before they start.
    pub backward: u64,
    /// Records without one of the plan's keys.
    pub unkeyed: u64,
    /// Records that would be given to too many intervals.
    pub too_long: u64,
}

/// How a table is written.
#[derive(Clone, Copy, Debug, PartialEq, Eq)]
pub enum TableFormat {
    Csv,
    Ipfix,
    Json,
}

/// Into what the rows of a table were merged.
#[derive(Drop)]
pub struct MergedInto {
    pub interval: MergedInterval,
    /// The name of the zone whose days or months they are, as it was given.
    pub zone: String,
}

/// The intervals that rows were merged into.
#[derive(Clone, Copy, Debug, PartialEq, Eq)]
pub enum MergedInterval {
    /// Local days.
    Day,
    /// Local months.
    Month,
}

impl MergedInterval {
    /// Its name in a receipt, which is the word that `merge --into` takes.
    pub fn name(self) -> &'static str
        ensures { result.now ≡ interval_name self }
    {
        match self {
            MergedInterval::Day => "day",
            MergedInterval::Month => "month",
        }
    }
}

/// The sum of a counter over all rows of a table.
#[derive(Drop)]
pub struct CounterSum {
    /// The counter's name, as in the plan.
    pub name: String,
    pub sum: u128,
}

/// The table.
#[derive(Drop)]
pub struct TableReceipt {
    pub format: TableFormat,
    /// The export time of its messages, in seconds since 1970-01-01 UTC.
    pub time: u32,
    /// Into what its rows were merged; without it they have the plan's intervals.
    pub into: Option<MergedInto>,
    /// How many octets its text has.
    pub octets: u64,
    /// The SHA-256 of its text.
    pub sha256: [u8; 32],
    pub rows: u64,
    /// The sum of each counter of the plan, in the plan's order.
    pub sums: Vec<CounterSum>,
    /// The number of flows of all rows.
    pub flows: u128,
}

/// What a table was made of.
#[derive(Drop)]
pub struct Receipt {
    /// The version of collectd, as `1.2.3`.
    pub collectd: String,
    /// The text of the plan.
    pub plan: String,
    /// The files of elements, in the order in which they were given.
    pub elements: Vec<FileReceipt>,
    /// The file of each map of the plan, in the plan's order.
    pub maps: Vec<FileReceipt>,
    /// The inputs, in the order of their sessions.
    pub inputs: Vec<InputReceipt>,
    pub records: RecordCounts,
    pub table: TableReceipt,
    /// The names of the inputs that were left out, since their sums were too large, in the order in which they went.
    pub left_out: Vec<String>,
    /// Whether nothing was lost or passed over, and nothing left out: `--strict` would have ended with status 0.
    pub complete: bool,
}
