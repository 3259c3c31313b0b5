//! Which datagrams are taken over UDP, which templates they replace, and why the others are refused (RFC 7011,
//! sections 8, 8.1, 8.4 and 10.3).

use crate::octets::*;
use ipfix_datagrams::{
    DatagramReading, KnownTemplates, Moment, Reading, WithdrawnTemplate, append_withdrawals,
    keep_known, read_datagram,
};
use ipfix_message::{Decoded, Domains, MessageFault, Stamp, append_template_message, header_of};
use ipfix_wire::Header;
use std::alloc::Global;
use std::collections::BTreeMap;
use std::process::Abort;
use std::test::*;
use worked_examples::faults::VERSION_9;
use worked_examples::flows::{
    CUT_FLOW, FLOW_OF_DOMAIN_1, FLOW_OF_DOMAIN_2, NEXT_FLOW, ONE_FLOW, TEMPLATE_256,
};
use worked_examples::header;
use worked_examples::templates::*;

// What the templates may count, where that isn't tested.
const BUDGET: u64 = 16_384;

const TEMPLATE: WithdrawnTemplate = WithdrawnTemplate {
    id: 256,
    is_options: false,
};

const OPTIONS: WithdrawnTemplate = WithdrawnTemplate {
    id: 256,
    is_options: true,
};

// What is answered of a datagram, where no template was withdrawn.
fn answer(alloc: Global, domains: &Domains, datagram: &[u8]) -> Result<Reading, MessageFault> {
    answer_after(
        alloc,
        domains,
        &KnownTemplates::new(alloc, BUDGET, 0),
        datagram,
    )
}

// What is answered of a datagram.
fn answer_after(
    alloc: Global,
    domains: &Domains,
    known: &KnownTemplates,
    datagram: &[u8],
) -> Result<Reading, MessageFault> {
    let header = header_of(datagram)?;
    let resumed = BTreeMap::new(alloc);
    let barred = known.barred_in(header.domain);
    read_datagram(alloc, domains, known, &resumed, barred, &header, datagram)
}

// How a datagram is taken that is not ignored.
fn kept(reading: Reading) -> Option<DatagramReading> {
    match reading {
        Reading::Kept(reading) => Some(reading),
        Reading::TooMuch(_) => None,
        Reading::Ignored(_) => None,
    }
}

// How many withdrawals are ignored with a datagram.
fn ignored(alloc: Global, datagram: &[u8]) -> Result<Option<u64>, MessageFault> {
    match answer(alloc, &Domains::new(alloc), datagram)? {
        Reading::Kept(_) => Ok(None),
        Reading::TooMuch(_) => Ok(None),
        Reading::Ignored(withdrawals) => Ok(Some(withdrawals)),
    }
}

// The domains after messages.
fn domains_after(alloc: Global, messages: &[&[u8]]) -> Result<Domains, MessageFault> {
    let mut domains = Domains::new(alloc);
    for message in messages {
        let _ = domains.decode(alloc, message)?;
    }
    Ok(domains)
}

// Asserts that a datagram is taken after messages, and replaces these templates.
fn assert_taken(
    rt: &impl Abort,
    alloc: Global,
    messages: &[&[u8]],
    datagram: &[u8],
    expected: &[WithdrawnTemplate],
) -> Result<(), Fail> {
    let domains = domains_after(alloc, messages)?;
    let reading = kept(answer(alloc, &domains, datagram)?).ok_or("ignored")?;
    assert_eq!(rt; reading.withdrawn.as_slice(), expected);
    assert!(rt; reading.defined.is_empty());
    Ok(())
}

// Asserts that a datagram is refused after messages with this fault.
fn assert_refused(
    rt: &impl Abort,
    alloc: Global,
    messages: &[&[u8]],
    datagram: &[u8],
    fault: MessageFault,
) -> Result<(), Fail> {
    let domains = domains_after(alloc, messages)?;
    let refused = answer(alloc, &domains, datagram).err();
    assert_eq!(rt; refused, Some(fault));
    Ok(())
}

// A datagram is one message: its length is that of its header, and its version is 10.
#[test]
fn a_datagram_is_one_message(rt: HostRuntime) -> Result<(), Fail> {
    let length = MessageFault::MessageLength;
    let mut longer = Vec::from_slice(rt.alloc(), ONE_FLOW)?;
    longer.push(0)?;
    assert_refused(&rt, rt.alloc(), &[], &longer, length)?;
    assert_refused(&rt, rt.alloc(), &[], CUT_FLOW, length)?;
    assert_refused(&rt, rt.alloc(), &[], &[], length)?;
    let version = MessageFault::Version;
    assert_refused(&rt, rt.alloc(), &[], VERSION_9, version)?;
    assert_taken(&rt, rt.alloc(), &[], ONE_FLOW, &[])
}

// Exporters send templates again and again over UDP.
#[test]
fn a_template_that_is_sent_again_replaces_nothing(rt: HostRuntime) -> Result<(), Fail> {
    assert_taken(&rt, rt.alloc(), &[ONE_FLOW], TEMPLATE_256, &[])?;
    assert_taken(&rt, rt.alloc(), &[ONE_FLOW, NEXT_FLOW], ONE_FLOW, &[])?;
    assert_taken(&rt, rt.alloc(), &[OPTIONS_TEMPLATE], OPTIONS_TEMPLATE, &[])
}

// A definition replaces an older one of its id, and no other.
#[test]
fn a_changed_template_is_replaced(rt: HostRuntime) -> Result<(), Fail> {
    assert_taken(&rt, rt.alloc(), &[ONE_FLOW], CHANGES_256, &[TEMPLATE])?;
    assert_taken(&rt, rt.alloc(), &[CHANGES_256], ONE_FLOW, &[TEMPLATE])?;
    assert_taken(
        &rt,
        rt.alloc(),
        &[ONE_FLOW],
        DEFINES_300_AND_CHANGES_256,
        &[TEMPLATE],
    )
}

#[test]
fn an_options_template_replaces_a_template(rt: HostRuntime) -> Result<(), Fail> {
    assert_taken(&rt, rt.alloc(), &[ONE_FLOW], OPTIONS_256, &[TEMPLATE])?;
    assert_taken(&rt, rt.alloc(), &[OPTIONS_256], ONE_FLOW, &[OPTIONS])
}

// The record of the template that stays is read, though its template comes after it; that of the changed one
// has no template.
#[test]
fn records_of_unchanged_templates_are_read(rt: HostRuntime) -> Result<(), Fail> {
    let alloc: Global = rt.alloc();
    let mut domains = domains_after(alloc, &[ONE_FLOW, DEFINES_257])?;
    let reading = kept(answer(alloc, &domains, CHANGES_256_AFTER_RECORDS)?).ok_or("ignored")?;
    assert_eq!(rt; reading.withdrawn.as_slice(), [TEMPLATE].as_slice());
    let mut front = Vec::new(alloc);
    append_withdrawals(&header_of(ONE_FLOW)?, &[TEMPLATE], &mut front)?;
    let _ = domains.decode(alloc, &front)?;
    let decoded = domains.decode(alloc, CHANGES_256_AFTER_RECORDS)?;
    assert_eq!(rt; (decoded.records.len(), decoded.unknown_sets), (1, 1));
    Ok(())
}

// One that defines an id in two ways is no datagram of one exporter.
#[test]
fn a_datagram_that_contradicts_itself_is_refused(rt: HostRuntime) -> Result<(), Fail> {
    let fault = MessageFault::TemplateChanged;
    assert_refused(&rt, rt.alloc(), &[], CHANGED_TEMPLATE, fault)?;
    assert_refused(&rt, rt.alloc(), &[ONE_FLOW], CHANGED_TEMPLATE, fault)
}

// No datagram is refused for a withdrawal.
#[test]
fn a_withdrawal_is_no_fault(rt: HostRuntime) -> Result<(), Fail> {
    assert_taken(&rt, rt.alloc(), &[ONE_FLOW], WITHDRAWS_256, &[])?;
    assert_taken(&rt, rt.alloc(), &[ONE_FLOW], WITHDRAWS_ALL, &[])?;
    assert_taken(&rt, rt.alloc(), &[], WITHDRAWS_ALL, &[])?;
    assert_taken(&rt, rt.alloc(), &[], EMPTY_SET_IN_FORCE_ONCE, &[])?;
    assert_taken(&rt, rt.alloc(), &[OPTIONS_TEMPLATE], WITHDRAWS_ALL, &[])
}

// A datagram of withdrawals alone is ignored, whether or not the templates are known; one without a set is not.
#[test]
fn withdrawals_alone_are_ignored(rt: HostRuntime) -> Result<(), Fail> {
    assert_eq!(rt; ignored(rt.alloc(), WITHDRAWAL_OF_NOTHING)?, Some(1));
    assert_eq!(rt; ignored(rt.alloc(), WITHDRAWAL_OF_TWO)?, Some(2));
    assert_eq!(rt; ignored(rt.alloc(), &header(16, 0, 1))?, None);
    Ok(())
}

// Takes a datagram as its reading says: the templates that it replaces are withdrawn, others are defined again,
// and it is decoded.
fn take(
    alloc: Global,
    domains: &mut Domains,
    known: &mut KnownTemplates,
    datagram: &[u8],
) -> Result<Decoded, Fail> {
    let header = header_of(datagram)?;
    let resumed = BTreeMap::new(alloc);
    let barred = known.barred_in(header.domain);
    let read = read_datagram(alloc, domains, known, &resumed, barred, &header, datagram)?;
    let reading = kept(read).ok_or("ignored")?;
    let now = Moment {
        export_time: header.export_time,
        second: 0,
    };
    keep_known(alloc, known, domains, header.domain, now, &reading)?;
    let mut message = Vec::new(alloc);
    for template in reading.withdrawn.as_slice() {
        message.clear();
        append_withdrawals(&header, &[*template], &mut message)?;
        let _ = domains.decode(alloc, &message)?;
    }
    let stamp = Stamp {
        export_time: header.export_time,
        sequence: header.sequence,
        domain: header.domain,
    };
    let mut body = Vec::new(alloc);
    for known in reading.defined.values() {
        message.clear();
        append_template_message(stamp, known.to_write(), &mut body, &mut message)?;
        let _ = domains.decode(alloc, &message)?;
    }
    Ok(domains.decode(alloc, datagram)?)
}

// Asserts that datagrams, taken in turn after one flow, give so many records each.
fn assert_records(
    rt: &impl Abort,
    alloc: Global,
    datagrams: &[(&[u8], usize)],
) -> Result<(), Fail> {
    let mut domains = domains_after(alloc, &[ONE_FLOW])?;
    let mut known = KnownTemplates::new(alloc, BUDGET, 0);
    for (datagram, records) in datagrams {
        let decoded = take(alloc, &mut domains, &mut known, datagram)?;
        assert_eq!(rt; decoded.records.len(), *records);
    }
    Ok(())
}

// How many templates are defined again before a datagram.
fn defined_before(
    alloc: Global,
    domains: &Domains,
    known: &KnownTemplates,
    datagram: &[u8],
) -> Result<usize, Fail> {
    let reading = kept(answer_after(alloc, domains, known, datagram)?).ok_or("ignored")?;
    Ok(reading.defined.len())
}

// A template that was withdrawn is known over UDP: it is defined again before a datagram with data sets of it,
// and before no other.
#[test]
fn a_withdrawn_template_is_defined_again(rt: HostRuntime) -> Result<(), Fail> {
    let alloc: Global = rt.alloc();
    let mut domains = domains_after(alloc, &[ONE_FLOW])?;
    let mut known = KnownTemplates::new(alloc, BUDGET, 0);
    let _ = take(alloc, &mut domains, &mut known, WITHDRAWS_256)?;
    for (datagram, defined) in [(NEXT_FLOW, 1), (CHANGES_256, 0), (TEMPLATE_256, 0)] {
        assert_eq!(rt; defined_before(alloc, &domains, &known, datagram)?, defined);
    }
    let decoded = take(alloc, &mut domains, &mut known, NEXT_FLOW)?;
    assert_eq!(rt; decoded.records.len(), 1);
    assert!(rt; known.withdrawn.is_empty());
    Ok(())
}

// What a datagram defines is known after it, though it withdraws it itself, and whether or not it withdraws the
// older one first.
#[test]
fn what_a_datagram_defines_is_known(rt: HostRuntime) -> Result<(), Fail> {
    let ended = [(WITHDRAWS_AND_CHANGES_256, 1), (COUNT_OF_256, 1)];
    assert_records(&rt, rt.alloc(), &ended)?;
    let replaced = [(CHANGES_AND_WITHDRAWS_256, 1), (COUNT_OF_256, 1)];
    assert_records(&rt, rt.alloc(), &replaced)
}

// The first definition of an id is what replaces another, and the last is what is known.
#[test]
fn the_last_definition_is_known(rt: HostRuntime) -> Result<(), Fail> {
    let alloc: Global = rt.alloc();
    let domains = domains_after(alloc, &[CHANGES_256])?;
    let reading = kept(answer(alloc, &domains, CHANGES_256_TWICE)?).ok_or("ignored")?;
    assert!(rt; reading.withdrawn.is_empty());
    let last = reading.definitions.get(&256).ok_or("not defined")?;
    assert_eq!(rt; last.least(), 2);
    assert_taken(&rt, alloc, &[ONE_FLOW], CHANGES_256_TWICE, &[TEMPLATE])
}

// Its data set is passed over as unknown.
#[test]
fn records_before_their_template_are_taken(rt: HostRuntime) -> Result<(), Fail> {
    assert_taken(&rt, rt.alloc(), &[], FLOW_OF_DOMAIN_1, &[])
}

// Template ids belong to a domain: another domain's templates change nothing.
#[test]
fn domains_are_apart(rt: HostRuntime) -> Result<(), Fail> {
    assert_taken(&rt, rt.alloc(), &[FLOW_OF_DOMAIN_2], ONE_FLOW, &[])?;
    assert_taken(
        &rt,
        rt.alloc(),
        &[FLOW_OF_DOMAIN_2, CHANGES_256],
        FLOW_OF_DOMAIN_2,
        &[],
    )?;
    assert_taken(
        &rt,
        rt.alloc(),
        &[FLOW_OF_DOMAIN_2, CHANGES_256],
        ONE_FLOW,
        &[TEMPLATE],
    )
}

#[test]
fn one_domain_too_many_is_refused(rt: HostRuntime) -> Result<(), Fail> {
    let alloc: Global = rt.alloc();
    let mut domains = Domains::new(alloc);
    for domain in 0..1024 {
        let _ = domains.decode(alloc, &header(16, 0, domain))?;
    }
    assert!(rt; answer(alloc, &domains, &header(16, 0, 1023)).is_ok());
    assert_eq!(rt;
        answer(alloc, &domains, &header(16, 0, 1024)).err(),
        Some(MessageFault::TooManyDomains)
    );
    Ok(())
}

// A malformed datagram has its message's fault.
#[test]
fn a_malformed_datagram_is_refused(rt: HostRuntime) -> Result<(), Fail> {
    let fault = MessageFault::ZeroLength;
    assert_refused(&rt, rt.alloc(), &[ONE_FLOW], ZERO_LENGTH_TEMPLATE, fault)
}

// Nothing changes by asking.
#[test]
fn domains_stay_as_they_are(rt: HostRuntime) -> Result<(), Fail> {
    let alloc: Global = rt.alloc();
    let domains = domains_after(alloc, &[ONE_FLOW])?;
    let _ = answer(alloc, &domains, CHANGES_256)?;
    let _ = answer(alloc, &domains, WITHDRAWS_256);
    let fields = domains.lookup(1, 256).map(|template| template.specs.len());
    assert_eq!(rt; fields, Some(4));
    assert!(rt; domains.lookup(1, 300).is_none());
    Ok(())
}

// A set for each template (RFC 7011, section 8.1), and what it does.
#[test]
fn a_message_withdraws_templates(rt: HostRuntime) -> Result<(), Fail> {
    let alloc: Global = rt.alloc();
    let mut octets = Vec::new(alloc);
    let header = Header {
        length: 16,
        export_time: 1_700_000_000,
        sequence: 5,
        domain: 7,
    };
    let last = WithdrawnTemplate {
        id: 300,
        is_options: true,
    };
    append_withdrawals(&header, &[TEMPLATE, last], &mut octets)?;
    assert_eq!(rt; octets.as_slice(), WITHDRAWAL_OF_TWO);
    for (first, template) in [(ONE_FLOW, TEMPLATE), (OPTIONS_256, OPTIONS)] {
        let mut domains = domains_after(alloc, &[first])?;
        octets.clear();
        append_withdrawals(&header_of(first)?, &[template], &mut octets)?;
        let decoded = domains.decode(alloc, &octets)?;
        assert_eq!(rt;
            (decoded.records.len(), decoded.ignored_withdrawals),
            (0, 0)
        );
        assert!(rt; domains.lookup(1, 256).is_none());
    }
    Ok(())
}

// How a datagram is taken that comes first after an earlier run, which left the templates of a flow's message.
fn resuming(alloc: Global, datagram: &[u8]) -> Result<DatagramReading, Fail> {
    let mut earlier = Domains::new(alloc);
    let _ = earlier.decode(alloc, ONE_FLOW)?;
    let resumed = earlier.templates(1).ok_or("no templates")?;
    let header = header_of(datagram)?;
    let domains = Domains::new(alloc);
    let known = KnownTemplates::new(alloc, BUDGET, 0);
    let read = read_datagram(alloc, &domains, &known, resumed, &[], &header, datagram)?;
    Ok(kept(read).ok_or("ignored")?)
}

#[test]
fn templates_of_an_earlier_run_are_defined(rt: HostRuntime) -> Result<(), Fail> {
    let reading = resuming(rt.alloc(), FLOW_OF_DOMAIN_1)?;
    assert_eq!(rt; (reading.defined.len(), reading.defines()), (1, false));
    assert!(rt; reading.defined.contains_key(&256));
    Ok(())
}

// The datagram defines template 256 otherwise.
#[test]
fn what_a_datagram_defines_is_not_resumed(rt: HostRuntime) -> Result<(), Fail> {
    let reading = resuming(rt.alloc(), CHANGES_256)?;
    assert_eq!(rt; (reading.defined.len(), reading.defines()), (0, true));
    Ok(())
}

// What becomes of a datagram with this budget, where nothing is known yet.
fn is_too_much(alloc: Global, budget: u64, datagram: &[u8]) -> Result<bool, MessageFault> {
    let known = KnownTemplates::new(alloc, budget, 0);
    match answer_after(alloc, &Domains::new(alloc), &known, datagram)? {
        Reading::TooMuch(_) => Ok(true),
        Reading::Kept(_) => Ok(false),
        Reading::Ignored(_) => Ok(false),
    }
}

// A domain counts 16, and a template of four fields 12.
#[test]
fn a_template_counts_its_fields(rt: HostRuntime) -> Result<(), Fail> {
    assert!(rt; is_too_much(rt.alloc(), 27, ONE_FLOW)?);
    assert!(rt; !is_too_much(rt.alloc(), 28, ONE_FLOW)?);
    Ok(())
}

// A template is changed that has no room: its id has none from then on, and its data sets are unknown.
#[test]
fn a_template_that_has_no_room_is_known_no_more(rt: HostRuntime) -> Result<(), Fail> {
    let alloc: Global = rt.alloc();
    let mut domains = Domains::new(alloc);
    let mut known = KnownTemplates::new(alloc, 28, 0);
    let _ = take(alloc, &mut domains, &mut known, ONE_FLOW)?;
    let Reading::TooMuch(ids) = answer_after(alloc, &domains, &known, DEFINES_300_AND_CHANGES_256)?
    else {
        return Err(Fail::from("taken"));
    };
    assert_eq!(rt; ids.as_slice(), [256].as_slice());
    known.bar(alloc, 1, &ids)?;
    for _time in 0..2 {
        let decoded = take(alloc, &mut domains, &mut known, NEXT_FLOW)?;
        assert_eq!(rt; (decoded.records.len(), decoded.unknown_sets), (0, 1));
    }
    let _ = take(alloc, &mut domains, &mut known, TEMPLATE_256)?;
    let decoded = take(alloc, &mut domains, &mut known, NEXT_FLOW)?;
    assert_eq!(rt; (decoded.records.len(), decoded.unknown_sets), (1, 0));
    Ok(())
}
