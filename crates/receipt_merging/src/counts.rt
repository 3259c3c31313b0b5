//! How many records of parts are of each class.

ghost use Rattle.std.specs.Prelude.{◌≡◌};
ghost use Rattle.receipt_merging.specs.Parts.{add_counts as sum_counts, no_counts, sum_of};

use table_receipts::RecordCounts;

/// No records.
pub fn no_records() -> RecordCounts
    ensures { result ≡ no_counts }
{
    RecordCounts {
        used: 0,
        options: 0,
        untimed: 0,
        backward: 0,
        unkeyed: 0,
        too_long: 0,
    }
}

/// So many more of each class.
pub fn add_counts(counts: RecordCounts, more: RecordCounts) -> RecordCounts
    ensures { result ≡ sum_counts counts more }
{
    RecordCounts {
        used: add(counts.used, more.used),
        options: add(counts.options, more.options),
        untimed: add(counts.untimed, more.untimed),
        backward: add(counts.backward, more.backward),
        unkeyed: add(counts.unkeyed, more.unkeyed),
        too_long: add(counts.too_long, more.too_long),
    }
}

fn add(count: u64, more: u64) -> u64
    ensures { result ≡ sum_of count more }
{
    match count.checked_add(more) {
        Some(sum) => sum,
        None => u64::MAX,
    }
}
