//! How far inputs are alike, and an order of them by it.

ghost use Rattle.std.specs.Prelude.{◌≡◌};
ghost use Rattle.std.specs.Ordering.{nat_cmp};
ghost use Rattle.table_receipts.specs.Values.{exporter_value, input_value};
ghost use Rattle.receipt_differences.specs.Orders.{exporter_cmp, exporter_place, exporter_text, likeness_cmp, octets_cmp};

use crate::reports::by_report;
use std::cmp::Ordering;
use table_receipts::{ExporterReceipt, InputReceipt};

/// How far two inputs are alike.
#[derive(Clone, Copy)]
pub enum Likeness {
    /// They have the same octets, by their number and digest.
    Octets,
    /// And the same exporter.
    Exporter,
    /// And their sessions gave the same.
    Report,
}

/// Which of two inputs comes first: those that are so far alike are equal.
pub fn compare(to: Likeness, input: &InputReceipt, other: &InputReceipt) -> Ordering
    ensures { result ≡ likeness_cmp to (input_value input.now) (input_value other.now) }
{
    match to {
        Likeness::Octets => by_octets(input, other),
        Likeness::Exporter => by_origin(input, other),
        Likeness::Report => by_all(input, other),
    }
}

fn by_all(input: &InputReceipt, other: &InputReceipt) -> Ordering
    ensures { result ≡ likeness_cmp Likeness.Report (input_value input.now) (input_value other.now) }
{
    let order = by_origin(input, other);
    if order.is_ne() {
        order
    } else {
        by_report(input, other)
    }
}

fn by_origin(input: &InputReceipt, other: &InputReceipt) -> Ordering
    ensures { result ≡ likeness_cmp Likeness.Exporter (input_value input.now) (input_value other.now) }
{
    by_octets(input, other).then(by_exporter(&input.exporter, &other.exporter))
}

fn by_octets(input: &InputReceipt, other: &InputReceipt) -> Ordering
    ensures { result ≡ octets_cmp (input_value input.now) (input_value other.now) }
{
    let number = input.file.octets.cmp(&other.file.octets);
    number.then(input.file.sha256.cmp(&other.file.sha256))
}

fn by_exporter(exporter: &ExporterReceipt, other: &ExporterReceipt) -> Ordering
    ensures { result ≡ exporter_cmp (exporter_value exporter.now) (exporter_value other.now) }
{
    let place = place_of(exporter).cmp(&place_of(other));
    place.then(text_of(exporter).cmp(text_of(other)))
}

fn place_of(exporter: &ExporterReceipt) -> u8
    ensures { result ≡ exporter_place (exporter_value exporter.now) }
{
    match exporter {
        ExporterReceipt::NotAsked => 0,
        ExporterReceipt::Unknown => 1,
        ExporterReceipt::Address(_) => 2,
    }
}

fn text_of(exporter: &ExporterReceipt) -> &str
    ensures { result.now ≡ exporter_text (exporter_value exporter.now) }
{
    match exporter {
        ExporterReceipt::Address(text) => text.as_str(),
        _ => "",
    }
}
