//! Estimates, by values worked out by hand.

use exporter_options::{Rate, SAMPLING_RATE, ToldFields, Wanted, rate_of};
use flow_estimates::{
    Estimate, Estimates, RateCount, RateNotes, SamplingReport, append_estimates, has_too_large,
    report_of,
};
use ipfix_message::{DataRecord, Fields};
use ipfix_wire::ElementId;
use std::alloc::{AllocError, Global};
use std::test::*;

// octetDeltaCount, packetDeltaCount, and their estimates.
const OCTETS: ElementId = ElementId { pen: 0, number: 1 };

const PACKETS: ElementId = ElementId { pen: 0, number: 2 };

const OCTETS_ESTIMATED: ElementId = ElementId {
    pen: 32473,
    number: 1001,
};

const PACKETS_ESTIMATED: ElementId = ElementId {
    pen: 32473,
    number: 1002,
};

// So many of so many, as fields say it.
fn push_rate(fields: &mut Fields, selected: u32, population: u64) -> Result<(), AllocError> {
    let [a, b, c, d] = selected.to_be_bytes();
    let [e, f, g, h, i, j, k, l] = population.to_be_bytes();
    fields.push(SAMPLING_RATE, &[a, b, c, d, e, f, g, h, i, j, k, l])
}

fn estimates_of_both(alloc: Global) -> Result<Estimates, AllocError> {
    let mut keys = Vec::new(alloc);
    keys.push(Estimate {
        counter: OCTETS,
        element: OCTETS_ESTIMATED,
    })?;
    keys.push(Estimate {
        counter: PACKETS,
        element: PACKETS_ESTIMATED,
    })?;
    Ok(Estimates { keys })
}

// The number in a field of 8 octets.
fn number(fields: &Fields, element: ElementId) -> Option<u64> {
    let octets = <[u8; 8]>::try_from(fields.find(element)?).ok()?;
    Some(u64::from_be_bytes(octets))
}

// The estimate of an octet count at a rate.
fn estimated(
    alloc: Global,
    count: u64,
    rate: Option<(u32, u64)>,
) -> Result<Option<u64>, AllocError> {
    let mut fields = Fields::new(alloc);
    fields.push(OCTETS, &count.to_be_bytes())?;
    if let Some((selected, population)) = rate {
        push_rate(&mut fields, selected, population)?;
    }
    let wanted = estimates_of_both(alloc)?;
    append_estimates(alloc, Some(&wanted), &mut fields)?;
    Ok(number(&fields, OCTETS_ESTIMATED))
}

// softflowd -s 10 counts 205,276 octets of 10 times as many.
#[test]
fn scales_by_the_rate(rt: HostRuntime) -> Result<(), Fail> {
    let alloc = rt.alloc();
    assert_eq!(rt; estimated(alloc, 205_276, Some((1, 10)))?, Some(2_052_760));
    assert_eq!(rt; estimated(alloc, 487, Some((1, 10)))?, Some(4_870));
    Ok(())
}

// 3 of 10: 100 x 10 / 3 is 333 and a third; 2 x 10 / 3 is 6 and two thirds.
#[test]
fn rounds_down(rt: HostRuntime) -> Result<(), Fail> {
    let alloc = rt.alloc();
    assert_eq!(rt; estimated(alloc, 100, Some((3, 10)))?, Some(333));
    assert_eq!(rt; estimated(alloc, 2, Some((3, 10)))?, Some(6));
    assert_eq!(rt; estimated(alloc, 0, Some((3, 10)))?, Some(0));
    Ok(())
}

// Where all packets are selected, where no rate is known, and where none would be selected, it is the counter.
#[test]
fn leaves_what_is_not_sampled(rt: HostRuntime) -> Result<(), Fail> {
    let alloc = rt.alloc();
    assert_eq!(rt; estimated(alloc, 205_276, None)?, Some(205_276));
    assert_eq!(rt; estimated(alloc, 205_276, Some((7, 7)))?, Some(205_276));
    assert_eq!(rt; estimated(alloc, 205_276, Some((0, 7)))?, Some(205_276));
    Ok(())
}

// 2^60 x 16 is 2^64, which 8 octets have no place for; 2^60 x 15 is 17,293,822,569,102,704,640.
#[test]
fn has_no_estimate_of_65_bits(rt: HostRuntime) -> Result<(), Fail> {
    let alloc = rt.alloc();
    assert_eq!(rt; estimated(alloc, 1 << 60, Some((1, 16)))?, None);
    assert_eq!(rt;
        estimated(alloc, 1 << 60, Some((1, 15)))?,
        Some(17_293_822_569_102_704_640)
    );
    assert_eq!(rt; estimated(alloc, u64::MAX, Some((1, 1_000_000)))?, None);
    Ok(())
}

// It is told that an estimate is too large: of packets, where that of octets is not.
#[test]
fn tells_too_large(rt: HostRuntime) -> Result<(), Fail> {
    let alloc = rt.alloc();
    let wanted = estimates_of_both(alloc)?;
    let mut fields = Fields::new(alloc);
    fields.push(OCTETS, &[9])?;
    fields.push(PACKETS, &(1u64 << 61).to_be_bytes())?;
    assert!(rt; !has_too_large(Some(&wanted), &fields));
    push_rate(&mut fields, 1, 8)?;
    assert!(rt; has_too_large(Some(&wanted), &fields));
    assert!(rt; !has_too_large(None, &fields));
    Ok(())
}

// A counter that a record lacks has no estimate; what an exporter says of an estimate's element is removed.
#[test]
fn believes_no_exporter(rt: HostRuntime) -> Result<(), Fail> {
    let alloc = rt.alloc();
    let wanted = estimates_of_both(alloc)?;
    let mut fields = Fields::new(alloc);
    fields.push(OCTETS_ESTIMATED, &77u64.to_be_bytes())?;
    fields.push(PACKETS_ESTIMATED, &78u64.to_be_bytes())?;
    fields.push(OCTETS, &[0, 5])?;
    push_rate(&mut fields, 1, 100)?;
    append_estimates(alloc, Some(&wanted), &mut fields)?;
    assert_eq!(rt; number(&fields, OCTETS_ESTIMATED), Some(500));
    assert_eq!(rt; number(&fields, PACKETS_ESTIMATED), None);
    assert_eq!(rt; fields.len(), 3);
    Ok(())
}

// Without estimates nothing is changed.
#[test]
fn changes_nothing_else(rt: HostRuntime) -> Result<(), Fail> {
    let alloc = rt.alloc();
    let mut fields = Fields::new(alloc);
    fields.push(OCTETS_ESTIMATED, &77u64.to_be_bytes())?;
    append_estimates(alloc, None, &mut fields)?;
    assert_eq!(rt; number(&fields, OCTETS_ESTIMATED), Some(77));
    assert!(rt; rate_of(&fields).is_none());
    Ok(())
}

// A record: its domain, how many scope fields it has, and its fields of IANA's elements, in up to 8 octets each.
type Record<'a> = (u32, u16, &'a [(u16, &'a [u8])]);

fn record_of(alloc: Global, of: &Record) -> Result<DataRecord, AllocError> {
    let (domain, scope, told) = *of;
    let mut fields = Fields::new(alloc);
    for (number, octets) in told {
        fields.push(ElementId::iana(*number), &octets[..octets.len().min(8)])?;
    }
    Ok(DataRecord {
        domain,
        export_time: 1_700_000_000,
        template: 256,
        scope,
        fields,
    })
}

// What is told of a session's records.
fn told_of(alloc: Global, records: &[Record]) -> Result<SamplingReport, AllocError> {
    let wanted = Wanted {
        init_time: false,
        sampling: true,
    };
    let mut told = ToldFields::new(alloc, wanted)?;
    let mut notes = RateNotes::new(alloc)?;
    for of in records {
        let mut item = record_of(alloc, of)?;
        told.append(&mut item)?;
        notes.note(None, &item);
    }
    Ok(report_of(notes, &told))
}

fn is_count(
    count: Option<&RateCount>,
    domain: u32,
    rate: Option<(u32, u64)>,
    records: u64,
) -> bool {
    let Some(count) = count else {
        return false;
    };
    let rate = match rate {
        Some((selected, population)) => Some(Rate {
            selected,
            population,
        }),
        None => None,
    };
    count.domain == domain && count.rate == rate && count.records == records
}

const FLOW: [(u16, &'static [u8]); 1] = [(1, &[9])];

const ONE_OF_TEN: [(u16, &'static [u8]); 3] = [
    (143, &[1]),
    (305, &[0, 0, 0, 1]),
    (306, &[0, 0, 0, 9]),
];

// One flow before the rate of its domain was told, and two after it: 305 says 1, 306 says 9. An options record is no
// flow.
#[test]
fn counts_records_by_rate(rt: HostRuntime) -> Result<(), Fail> {
    let alloc = rt.alloc();
    let records: [Record; 5] = [
        (7, 0, &FLOW),
        (7, 1, &ONE_OF_TEN),
        (7, 0, &FLOW),
        (7, 0, &FLOW),
        (8, 0, &FLOW),
    ];
    let report = told_of(alloc, &records)?;
    assert_eq!(rt; report.rates.len(), 2);
    assert!(rt; is_count(report.rates.get(0), 7, Some((1, 10)), 2));
    assert!(rt; is_count(report.rates.get(1), 7, None, 1));
    assert!(rt; report.is_sampled && report.is_unrated && !report.is_too_large);
    Ok(())
}

// A domain that tells no rate is not told of, and nothing is sampled.
#[test]
fn tells_nothing_of_unsampled_domains(rt: HostRuntime) -> Result<(), Fail> {
    let alloc = rt.alloc();
    let records: [Record; 3] = [(7, 0, &FLOW), (8, 1, &ONE_OF_TEN), (7, 0, &FLOW)];
    let report = told_of(alloc, &records)?;
    assert_eq!(rt; report.rates.len(), 0);
    assert!(rt; !report.is_sampled && !report.is_unrated);
    Ok(())
}

// Where the rate comes after all records of its domain they are sampled, too.
#[test]
fn tells_of_a_rate_that_comes_late(rt: HostRuntime) -> Result<(), Fail> {
    let alloc = rt.alloc();
    let records: [Record; 2] = [(7, 0, &FLOW), (7, 1, &ONE_OF_TEN)];
    let report = told_of(alloc, &records)?;
    assert_eq!(rt; report.rates.len(), 1);
    assert!(rt; is_count(report.rates.get(0), 7, None, 1));
    assert!(rt; report.is_sampled && report.is_unrated);
    Ok(())
}
