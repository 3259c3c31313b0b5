//! A receipt is written as its text, and that reads back; a text that is changed anywhere is refused.

use crate::example::{
    TEXT, TEXT_OF_MONTHS, TEXT_OF_THE_REST, TEXT_OF_WEEKS, receipt, receipt_of_months,
    receipt_of_the_rest,
};
use std::alloc::{AllocError, Global};
use std::str;
use std::test::*;
use table_receipts::{
    ExporterReceipt, MergedInterval, ReceiptFault, TableFormat, read_receipt, write_receipt,
};

#[test]
fn is_written_as_its_text(rt: HostRuntime) -> Result<(), Fail> {
    let alloc: Global = rt.alloc();
    let text = write_receipt(alloc, &receipt(alloc)?)?;
    assert!(rt; text.as_slice() == TEXT.as_bytes());
    Ok(())
}

#[test]
fn reads_back(rt: HostRuntime) -> Result<(), Fail> {
    let alloc: Global = rt.alloc();
    let Ok(receipt) = read_receipt(alloc, TEXT) else {
        return Err("the text was not read".into());
    };
    assert_eq!(rt; receipt.collectd.as_str(), "1.2.3");
    assert_eq!(rt; receipt.elements.len(), 1);
    assert_eq!(rt; receipt.maps.last().map(|file| file.octets), Some(33));
    assert_eq!(rt; receipt.inputs.len(), 3);
    let numbers = receipt
        .inputs
        .last()
        .map(|input| (input.file.octets, input.messages, input.records));
    assert_eq!(rt;
        numbers,
        Some((u64::MAX, 9007199254740991, 9007199254740992))
    );
    let mut exporters = Vec::new(alloc);
    for input in &receipt.inputs {
        exporters.push(match &input.exporter {
            ExporterReceipt::NotAsked => "not asked",
            ExporterReceipt::Unknown => "unknown",
            ExporterReceipt::Address(text) => text.as_str(),
        })?;
    }
    assert_eq!(rt;
        exporters.as_slice(),
        [
            "not asked",
            "unknown",
            "2001:0db8:0000:0000:0000:0000:0000:0001"
        ]
        .as_slice()
    );
    assert_eq!(rt; receipt.records.too_long, 6);
    assert_eq!(rt; receipt.table.format, TableFormat::Ipfix);
    assert_eq!(rt;
        receipt.table.sums.last().map(|sum| sum.sum),
        Some(u128::MAX)
    );
    assert!(rt; !receipt.complete);
    let text = write_receipt(alloc, &receipt)?;
    assert!(rt; text.as_slice() == TEXT.as_bytes());
    Ok(())
}

#[test]
fn names_what_was_left_out(rt: HostRuntime) -> Result<(), Fail> {
    let alloc: Global = rt.alloc();
    let text = write_receipt(alloc, &receipt_of_the_rest(alloc)?)?;
    assert!(rt; text.as_slice() == TEXT_OF_THE_REST.as_bytes());
    let Ok(receipt) = read_receipt(alloc, TEXT_OF_THE_REST) else {
        return Err("the text was not read".into());
    };
    let mut names = Vec::new(alloc);
    for name in &receipt.left_out {
        names.push(name.as_str())?;
    }
    assert_eq!(rt; names.as_slice(), ["second \"one\"", "first"].as_slice());
    Ok(())
}

#[test]
fn tells_into_what_rows_were_merged(rt: HostRuntime) -> Result<(), Fail> {
    let alloc: Global = rt.alloc();
    let text = write_receipt(alloc, &receipt_of_months(alloc)?)?;
    assert!(rt; text.as_slice() == TEXT_OF_MONTHS.as_bytes());
    let Ok(receipt) = read_receipt(alloc, TEXT_OF_MONTHS) else {
        return Err("the text was not read".into());
    };
    let into = receipt
        .table
        .into
        .as_ref()
        .map(|into| (into.interval, into.zone.as_str()));
    assert_eq!(rt; into, Some((MergedInterval::Month, "Europe/Zurich")));
    Ok(())
}

// With a SHA-256 of its own.
#[test]
fn refuses_intervals_that_there_are_not(rt: HostRuntime) {
    let alloc: Global = rt.alloc();
    let refused = read_receipt(alloc, TEXT_OF_WEEKS).err();
    assert_eq!(rt; refused, Some(ReceiptFault::NotAReceipt));
}

// The text with one bit of an octet turned.
fn changed(alloc: Global, place: usize) -> Result<Vec<u8>, AllocError> {
    let mut octets = Vec::from_slice(alloc, TEXT.as_bytes())?;
    if let Some(octet) = octets.get_mut(place) {
        *octet ^= 1;
    }
    Ok(octets)
}

// At each place where a text remains.
#[test]
fn refuses_each_octet_that_is_changed(rt: HostRuntime) -> Result<(), Fail> {
    let alloc: Global = rt.alloc();
    for place in 0..TEXT.len() {
        let octets = changed(alloc, place)?;
        if let Ok(text) = str::from_utf8(&octets) {
            let refused = read_receipt(alloc, text).err();
            assert_eq!(rt; refused, Some(ReceiptFault::NotAReceipt));
        }
    }
    Ok(())
}

#[test]
fn refuses_what_is_no_receipt(rt: HostRuntime) {
    let alloc: Global = rt.alloc();
    for text in [
        "",
        "{}",
        "[]",
        "null",
        "{\"receipt\":1}",
        &TEXT[1..],
        &TEXT[..1000],
    ] {
        assert_eq!(rt;
            read_receipt(alloc, text).err(),
            Some(ReceiptFault::NotAReceipt)
        );
    }
}
