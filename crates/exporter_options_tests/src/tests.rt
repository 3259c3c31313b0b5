//! What exporters tell in options records.

use exporter_options::{
    ExporterOptions, MOST_KEPT, NOTHING_WANTED, Rate, SAMPLING_RATE, Sampling, ToldFields, Wanted,
    sampling_in, selector_in, told_by,
};
use ipfix_message::{DataRecord, Fields};
use ipfix_wire::ElementId;
use std::alloc::{AllocError, Global};
use std::test::*;

// A record: its domain, how many scope fields it has, and its fields of IANA's elements, in up to 8 octets each.
type Record<'a> = (u32, u16, &'a [(u16, &'a [u8])]);

fn fields_of(alloc: Global, fields: &[(u16, &[u8])]) -> Result<Fields, AllocError> {
    let mut kept = Fields::new(alloc);
    for (number, octets) in fields {
        kept.push(ElementId::iana(*number), &octets[..octets.len().min(8)])?;
    }
    Ok(kept)
}

fn record_of(alloc: Global, of: &Record) -> Result<DataRecord, AllocError> {
    let (domain, scope, fields) = *of;
    Ok(DataRecord {
        domain,
        export_time: 1_700_000_000,
        template: 256,
        scope,
        fields: fields_of(alloc, fields)?,
    })
}

fn sampling(alloc: Global, fields: &[(u16, &[u8])]) -> Result<Option<Sampling>, AllocError> {
    Ok(sampling_in(&fields_of(alloc, fields)?))
}

fn at(selected: u32, population: u64) -> Option<Sampling> {
    Some(Sampling::At(Rate {
        selected,
        population,
    }))
}

// RFC 5477, section 8.2: of an interval of 1 packet and a space of 9 each tenth is selected.
#[test]
fn counts_an_interval_and_its_space(rt: HostRuntime) -> Result<(), Fail> {
    let alloc = rt.alloc();
    let told: [(u16, &[u8]); 3] = [(304, &[0, 1]), (305, &[0, 0, 0, 1]), (306, &[0, 0, 0, 9])];
    let found = [
        sampling(alloc, &told)?,
        sampling(alloc, &told[1..])?,
        sampling(alloc, &told[..2])?,
    ];
    assert_eq!(rt; found, [at(1, 10), at(1, 10), Some(Sampling::Unusable)]);
    Ok(())
}

// 2 of 100 packets at random.
#[test]
fn counts_a_size_and_its_population(rt: HostRuntime) -> Result<(), Fail> {
    let alloc = rt.alloc();
    let told: [(u16, &[u8]); 3] = [(304, &[3]), (309, &[2]), (310, &[100])];
    let found = [sampling(alloc, &told)?, sampling(alloc, &told[1..])?];
    assert_eq!(rt; found, [at(2, 100), None]);
    Ok(())
}

// An algorithm that has no rate of its own (2 is time-based) leaves that to the older elements, 50 before 34.
#[test]
fn takes_older_elements_after_the_algorithm(rt: HostRuntime) -> Result<(), Fail> {
    let alloc = rt.alloc();
    let told: [(u16, &[u8]); 4] = [(304, &[2]), (305, &[1]), (34, &[3, 232]), (50, &[100])];
    let found = [sampling(alloc, &told)?, sampling(alloc, &told[..3])?];
    assert_eq!(rt; found, [at(1, 100), at(1, 1000)]);
    Ok(())
}

// Zeros, and more than a million: 0f4240 is a million.
#[test]
fn refuses_zeros_and_rates_above_a_million(rt: HostRuntime) -> Result<(), Fail> {
    let alloc = rt.alloc();
    let unusable = Some(Sampling::Unusable);
    let found = [
        sampling(alloc, &[(34, &[0])])?,
        sampling(alloc, &[(305, &[0]), (306, &[9])])?,
        sampling(alloc, &[(34, &[0x0f, 0x42, 0x40])])?,
        sampling(alloc, &[(34, &[0x0f, 0x42, 0x41])])?,
    ];
    assert_eq!(rt; found, [unusable, unusable, at(1, 1_000_000), unusable]);
    Ok(())
}

// The domain that a record speaks of, if it tells anything.
fn domain_told(alloc: Global, of: &Record) -> Result<Option<u32>, AllocError> {
    match told_by(&record_of(alloc, of)?) {
        Some(told) => Ok(Some(told.domain)),
        None => Ok(None),
    }
}

// The domain that the scope names, else that of the message; a field 149 after the scope is no scope.
#[test]
fn speaks_of_the_domain_in_the_scope(rt: HostRuntime) -> Result<(), Fail> {
    let alloc = rt.alloc();
    let fields: [(u16, &[u8]); 3] = [(143, &[0, 0, 0, 1]), (149, &[0, 0, 0, 5]), (34, &[10])];
    let found = [
        domain_told(alloc, &(7, 1, &fields))?,
        domain_told(alloc, &(7, 2, &fields))?,
        domain_told(alloc, &(7, 0, &fields))?,
    ];
    assert_eq!(rt; found, [Some(7), Some(5), None]);
    Ok(())
}

// Notes records of a session in turn.
fn note_all(
    alloc: Global,
    known: &mut ExporterOptions,
    records: &[Record],
) -> Result<(), AllocError> {
    for of in records {
        known.note(&record_of(alloc, of)?)?;
    }
    Ok(())
}

// What is known after a session's first records.
fn known_after(alloc: Global, records: &[Record]) -> Result<ExporterOptions, AllocError> {
    let mut known = ExporterOptions::new(alloc);
    note_all(alloc, &mut known, records)?;
    Ok(known)
}

// How the packets of a domain are sampled then, by a selector if one is given.
fn sampling_after(
    alloc: Global,
    records: &[Record],
    domain: u32,
    selector: Option<u64>,
) -> Result<Option<Sampling>, AllocError> {
    Ok(known_after(alloc, records)?.sampling(domain, selector))
}

// When the exporter of a domain's records was started.
fn init_time_after(
    alloc: Global,
    records: &[Record],
    domain: u32,
) -> Result<Option<u64>, AllocError> {
    Ok(known_after(alloc, records)?.init_time(domain))
}

// What was told last wins; what was told of domain 0 holds where a domain was told nothing.
#[test]
fn keeps_what_was_told_last(rt: HostRuntime) -> Result<(), Fail> {
    let alloc = rt.alloc();
    let told: [Record; 3] = [
        (7, 1, &[(143, &[1]), (34, &[10])]),
        (7, 1, &[(149, &[0]), (34, &[20])]),
        (7, 1, &[(143, &[1]), (34, &[30])]),
    ];
    let found = [
        sampling_after(alloc, &told[..2], 7, None)?,
        sampling_after(alloc, &told[..2], 8, None)?,
        sampling_after(alloc, &told, 7, None)?,
    ];
    assert_eq!(rt; found, [at(1, 10), at(1, 20), at(1, 30)]);
    Ok(())
}

#[test]
fn keeps_selectors_apart(rt: HostRuntime) -> Result<(), Fail> {
    let alloc = rt.alloc();
    let told: [Record; 2] = [
        (7, 1, &[(302, &[1]), (34, &[10])]),
        (7, 1, &[(302, &[2]), (34, &[20])]),
    ];
    let found = [
        sampling_after(alloc, &told, 7, Some(1))?,
        sampling_after(alloc, &told, 7, Some(2))?,
        sampling_after(alloc, &told, 7, Some(3))?,
        sampling_after(alloc, &told, 7, None)?,
    ];
    assert_eq!(rt; found, [at(1, 10), at(1, 20), None, at(1, 20)]);
    Ok(())
}

// What softflowd 1.1.0 sends at `-s 10`: the scope is meteringProcessId, and interfaceName is filled with zeros.
const SOFTFLOWD: Record<'static> = (
    7,
    1,
    &[
        (143, &[0, 0, 3, 21]),
        (160, &[0, 0, 0x01, 0x8b, 0xcf, 0xe5, 0x68, 0]),
        (305, &[0, 0, 0, 1]),
        (306, &[0, 0, 0, 9]),
        (304, &[0, 1]),
        (82, &[0; 8]),
    ],
);

#[test]
fn reads_what_softflowd_tells(rt: HostRuntime) -> Result<(), Fail> {
    let alloc = rt.alloc();
    let told = [SOFTFLOWD];
    let started = [
        init_time_after(alloc, &told, 7)?,
        init_time_after(alloc, &told, 8)?,
    ];
    let sampled = [
        sampling_after(alloc, &told, 7, None)?,
        sampling_after(alloc, &told, 8, None)?,
    ];
    assert_eq!(rt; started, [Some(1_700_000_000_000), None]);
    assert_eq!(rt; sampled, [at(1, 10), None]);
    Ok(())
}

// The selector that fields name.
fn selector(alloc: Global, fields: &[(u16, &[u8])]) -> Result<Option<u64>, AllocError> {
    Ok(selector_in(&fields_of(alloc, fields)?))
}

// What nfprobe (pmacct 1.7.7) sends at `sampling_rate: 2`: samplerId, and records that name it.
const NFPROBE: Record<'static> = (
    7,
    1,
    &[
        (144, &[0, 0, 0, 1]),
        (48, &[1]),
        (49, &[2]),
        (50, &[0, 0, 0, 2]),
    ],
);

#[test]
fn reads_what_nfprobe_tells(rt: HostRuntime) -> Result<(), Fail> {
    let alloc = rt.alloc();
    let told = [NFPROBE];
    let named = selector(alloc, &[(48, &[1]), (1, &[0, 0, 5, 220])])?;
    let sampled = [
        sampling_after(alloc, &told, 7, named)?,
        sampling_after(alloc, &told, 7, Some(2))?,
        sampling_after(alloc, &told, 7, None)?,
    ];
    assert_eq!(rt; sampled, [at(1, 2), None, at(1, 2)]);
    assert_eq!(rt; init_time_after(alloc, &told, 7)?, None);
    Ok(())
}

// A flow record tells nothing, and neither does an options record without these elements, as openvswitch's.
#[test]
fn keeps_nothing_of_other_records(rt: HostRuntime) -> Result<(), Fail> {
    let told: [Record; 3] = [
        (7, 1, &[(34, &[10])]),
        (7, 0, &[(34, &[20])]),
        (7, 1, &[(144, &[0, 0, 0, 1]), (167, &[0; 8])]),
    ];
    assert_eq!(rt; sampling_after(rt.alloc(), &told, 7, None)?, at(1, 10));
    Ok(())
}

// A rate of no use takes the place of an earlier one, and that of domain 0 does not come instead.
#[test]
fn keeps_that_a_rate_is_of_no_use(rt: HostRuntime) -> Result<(), Fail> {
    let alloc = rt.alloc();
    let told: [Record; 3] = [
        (7, 1, &[(149, &[0]), (34, &[20])]),
        (7, 1, &[(34, &[10])]),
        (7, 1, &[(34, &[0])]),
    ];
    let unusable = Some(Sampling::Unusable);
    let found = [
        sampling_after(alloc, &told, 7, None)?,
        sampling_after(alloc, &told, 6, None)?,
    ];
    assert_eq!(rt; found, [unusable, at(1, 20)]);
    Ok(())
}

// What is known after a rate was told of each of the domains from 1, as many as are kept.
fn known_of_many(alloc: Global) -> Result<ExporterOptions, AllocError> {
    let mut known = ExporterOptions::new(alloc);
    for domain in 1..=MOST_KEPT as u32 {
        let tells: Record = (7, 1, &[(149, &domain.to_be_bytes()), (34, &[10])]);
        note_all(alloc, &mut known, &[tells])?;
    }
    Ok(known)
}

// How the packets of a domain are sampled when these records follow.
fn sampling_after_many(
    alloc: Global,
    records: &[Record],
    domain: u32,
) -> Result<Option<Sampling>, AllocError> {
    let mut known = known_of_many(alloc)?;
    note_all(alloc, &mut known, records)?;
    Ok(known.sampling(domain, None))
}

// Of one domain more than are kept, the one that was told of longest ago is forgotten.
#[test]
fn forgets_what_was_told_longest_ago(rt: HostRuntime) -> Result<(), Fail> {
    let alloc = rt.alloc();
    let more: [Record; 1] = [(7, 1, &[(149, &[0x10, 0]), (34, &[10])])];
    let found = [
        sampling_after_many(alloc, &[], 1)?,
        sampling_after_many(alloc, &more, 1)?,
        sampling_after_many(alloc, &more, 2)?,
        sampling_after_many(alloc, &more, 4096)?,
    ];
    assert_eq!(rt; found, [at(1, 10), None, at(1, 10), at(1, 10)]);
    Ok(())
}

// Whether these are a record's fields, in this order.
fn are_fields(fields: &Fields, want: &[(u16, &[u8])]) -> bool {
    for (index, (number, octets)) in want.iter().enumerate() {
        match fields.get(index) {
            Some(field) if field.element == ElementId::iana(*number) && field.octets == *octets =>
                {}
            _ => return false,
        }
    }
    fields.len() == want.len()
}

// The last of a session's records, with what was told before it, if that is wanted.
fn last_told(alloc: Global, wanted: Wanted, records: &[Record]) -> Result<Fields, AllocError> {
    let mut told = ToldFields::new(alloc, wanted)?;
    let mut last = Fields::new(alloc);
    for of in records {
        let mut item = record_of(alloc, of)?;
        told.append(&mut item)?;
        last = item.fields;
    }
    Ok(last)
}

// Whether the last of a session's records has these fields, with what was told before it.
fn ends_with(
    alloc: Global,
    wanted: Wanted,
    records: &[Record],
    want: &[(u16, &[u8])],
) -> Result<bool, AllocError> {
    Ok(are_fields(&last_told(alloc, wanted, records)?, want))
}

const STARTED: (u16, &'static [u8]) = (160, &[0, 0, 0, 0, 0, 0, 0, 5]);

// Each record gets what was told before it, of its own domain; an options record does not tell itself.
#[test]
fn appends_what_was_told_before(rt: HostRuntime) -> Result<(), Fail> {
    let alloc = rt.alloc();
    let wanted = Wanted {
        init_time: true,
        sampling: true,
    };
    let tells: [(u16, &[u8]); 3] = [(143, &[1]), (34, &[10]), STARTED];
    let own: [(u16, &[u8]); 1] = [(1, &[9])];
    let rate: (u16, &[u8]) = (SAMPLING_RATE.number, &[0, 0, 0, 1, 0, 0, 0, 0, 0, 0, 0, 10]);
    let records: [Record; 4] = [(7, 0, &own), (7, 1, &tells), (7, 0, &own), (8, 0, &own)];
    let found = [
        ends_with(alloc, wanted, &records[..1], &own)?,
        ends_with(alloc, wanted, &records[..2], &tells)?,
        ends_with(alloc, wanted, &records[..3], &[own[0], STARTED, rate])?,
        ends_with(alloc, wanted, &records, &own)?,
    ];
    assert_eq!(rt; found, [true; 4]);
    Ok(())
}

// Nothing is appended if nothing is wanted; a record's own time stays the first of its element.
#[test]
fn appends_only_what_is_wanted(rt: HostRuntime) -> Result<(), Fail> {
    let alloc = rt.alloc();
    let time = Wanted {
        init_time: true,
        sampling: false,
    };
    let own: [(u16, &[u8]); 1] = [(160, &[0, 0, 0, 0, 0, 0, 0, 9])];
    let records: [Record; 2] = [(7, 1, &[(143, &[1]), (34, &[10]), STARTED]), (7, 0, &own)];
    let found = [
        ends_with(alloc, NOTHING_WANTED, &records, &own)?,
        ends_with(alloc, time, &records, &[own[0], STARTED])?,
    ];
    assert_eq!(rt; found, [true; 2]);
    Ok(())
}
