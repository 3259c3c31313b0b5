use element_registry::ElementKind;
use element_values::{write_json_value, write_value};
use ipfix_elements::{Kind, Width};
use std::alloc::Global;
use std::io;
use std::io::{ErrorKind, Write};
use std::process::Abort;
use std::test::Fail;

// The text of a value, and its value of JSON.
fn texts(alloc: Global, kind: ElementKind, octets: &[u8]) -> Result<(Vec<u8>, Vec<u8>), Fail> {
    let mut text = Vec::new(alloc);
    write_value(kind, octets, &mut text)?;
    let mut json = Vec::new(alloc);
    write_json_value(kind, octets, &mut json)?;
    Ok((text, json))
}

// That these are the two.
fn assert_reads(
    rt: &impl Abort,
    alloc: Global,
    kind: ElementKind,
    octets: &[u8],
    text: &[u8],
    json: &[u8],
) -> Result<(), Fail> {
    let (written, written_json) = texts(alloc, kind, octets)?;
    assert_eq!(rt; (written.as_slice(), written_json.as_slice()), (text, json));
    Ok(())
}

// RFC 7011, section 6.1.5.
#[test]
fn one_is_true_and_two_is_false(rt: HostRuntime) -> Result<(), Fail> {
    let alloc = rt.alloc();
    let kind = ElementKind::Boolean;
    assert_reads(&rt, alloc, kind, &[1], b"true", b"true")?;
    assert_reads(&rt, alloc, kind, &[2], b"false", b"false")?;
    assert_reads(&rt, alloc, kind, &[0], b"?0x00", b"\"?0x00\"")?;
    assert_reads(&rt, alloc, kind, &[0, 1], b"?0x0001", b"\"?0x0001\"")?;
    assert_reads(&rt, alloc, kind, &[], b"?0x", b"\"?0x\"")?;
    Ok(())
}

// RFC 7011, sections 6.1.1 and 6.2: the sign of a number in fewer octets is extended.
#[test]
fn signed_numbers_keep_their_sign(rt: HostRuntime) -> Result<(), Fail> {
    let alloc = rt.alloc();
    let four = ElementKind::Signed(Width::Four);
    assert_reads(&rt, alloc, four, &[0xff, 0xff, 0xff, 0xfe], b"-2", b"-2")?;
    assert_reads(&rt, alloc, four, &[0xff, 0xfe], b"-2", b"-2")?;
    assert_reads(&rt, alloc, four, &[0x80], b"-128", b"-128")?;
    assert_reads(
        &rt,
        alloc,
        four,
        &[0x7f, 0xff, 0xff],
        b"8388607",
        b"8388607",
    )?;
    assert_reads(&rt, alloc, four, &[], b"?0x", b"\"?0x\"")?;
    assert_reads(
        &rt,
        alloc,
        four,
        &[0, 0, 0, 0, 1],
        b"?0x0000000001",
        b"\"?0x0000000001\"",
    )?;
    assert_reads(
        &rt,
        alloc,
        ElementKind::Signed(Width::One),
        &[0, 1],
        b"?0x0001",
        b"\"?0x0001\"",
    )?;
    Ok(())
}

// RFC 7493, section 2.2: what a reader of JSON may not hold exactly is a string.
#[test]
fn great_numbers_are_strings_in_json(rt: HostRuntime) -> Result<(), Fail> {
    let alloc = rt.alloc();
    let eight = ElementKind::Signed(Width::Eight);
    let least = b"-9223372036854775808";
    assert_reads(
        &rt,
        alloc,
        eight,
        &[0x80, 0, 0, 0, 0, 0, 0, 0],
        least,
        b"\"-9223372036854775808\"",
    )?;
    let below = b"-9007199254740991";
    assert_reads(
        &rt,
        alloc,
        eight,
        &[0xff, 0xe0, 0, 0, 0, 0, 0, 1],
        below,
        below,
    )?;
    let at = b"-9007199254740992";
    assert_reads(
        &rt,
        alloc,
        eight,
        &[0xff, 0xe0, 0, 0, 0, 0, 0, 0],
        at,
        b"\"-9007199254740992\"",
    )?;
    Ok(())
}

// RFC 7011, sections 6.1.9 and 6.1.10: 2,208,988,800 seconds from 1900 to 1970, then half a second.
#[test]
fn times_count_from_1970(rt: HostRuntime) -> Result<(), Fail> {
    let alloc = rt.alloc();
    let half = [0x83, 0xaa, 0x7e, 0x80, 0x80, 0, 0, 0];
    assert_reads(&rt, alloc, ElementKind::Micros, &half, b"500000", b"500000")?;
    assert_reads(
        &rt,
        alloc,
        ElementKind::Nanos,
        &half,
        b"500000000",
        b"500000000",
    )?;
    let low_bits = [0x83, 0xaa, 0x7e, 0x81, 0, 0, 0x07, 0xff];
    assert_reads(
        &rt,
        alloc,
        ElementKind::Micros,
        &low_bits,
        b"1000000",
        b"1000000",
    )?;
    assert_reads(
        &rt,
        alloc,
        ElementKind::Nanos,
        &low_bits,
        b"1000000476",
        b"1000000476",
    )?;
    assert_reads(
        &rt,
        alloc,
        ElementKind::Micros,
        &half[..7],
        b"?0x83aa7e80800000",
        b"\"?0x83aa7e80800000\"",
    )?;
    Ok(())
}

// RFC 5905, section 6: era 1 begins on 2036-02-07, 2,085,978,496 seconds after 1970.
#[test]
fn what_lies_before_1970_is_of_the_next_era(rt: HostRuntime) -> Result<(), Fail> {
    let alloc = rt.alloc();
    let first = [0; 8];
    assert_reads(
        &rt,
        alloc,
        ElementKind::Micros,
        &first,
        b"2085978496000000",
        b"2085978496000000",
    )?;
    let nanos = b"2085978496000000000";
    assert_reads(
        &rt,
        alloc,
        ElementKind::Nanos,
        &first,
        nanos,
        b"\"2085978496000000000\"",
    )?;
    Ok(())
}

#[test]
fn strings_can_do_nothing_to_a_terminal(rt: HostRuntime) -> Result<(), Fail> {
    let alloc = rt.alloc();
    let kind = ElementKind::Text;
    assert_reads(&rt, alloc, kind, b"eth0\0\0", b"\"eth0\"", b"\"eth0\"")?;
    assert_reads(&rt, alloc, kind, b"", b"\"\"", b"\"\"")?;
    assert_reads(
        &rt,
        alloc,
        kind,
        b"a\"b\\c d",
        b"\"a\\x22b\\x5cc d\"",
        b"\"a\\u0022b\\u005cc d\"",
    )?;
    assert_reads(
        &rt,
        alloc,
        kind,
        b"\x1b[2J",
        b"\"\\x1b[2J\"",
        b"\"\\u001b[2J\"",
    )?;
    assert_reads(
        &rt,
        alloc,
        kind,
        b"\0a\x7f",
        b"\"\\x00a\\x7f\"",
        b"\"\\u0000a\\u007f\"",
    )?;
    assert_reads(&rt, alloc, kind, &[0xff], b"?0xff", b"\"?0xff\"")?;
    Ok(())
}

// RFC 8259, section 7: the G clef is \uD834\uDD1E.
#[test]
fn characters_of_json_are_units_of_utf_16(rt: HostRuntime) -> Result<(), Fail> {
    let alloc = rt.alloc();
    let clef = [0xf0, 0x9d, 0x84, 0x9e];
    let text = b"\"\\xf0\\x9d\\x84\\x9e\"";
    assert_reads(
        &rt,
        alloc,
        ElementKind::Text,
        &clef,
        text,
        b"\"\\ud834\\udd1e\"",
    )?;
    assert_reads(
        &rt,
        alloc,
        ElementKind::Text,
        &[0xc3, 0xa9],
        b"\"\\xc3\\xa9\"",
        b"\"\\u00e9\"",
    )?;
    Ok(())
}

#[test]
fn kinds_of_built_in_elements_are_as_ever(rt: HostRuntime) -> Result<(), Fail> {
    let alloc = rt.alloc();
    let eight = ElementKind::Plain(Kind::Unsigned(Width::Eight));
    assert_reads(&rt, alloc, eight, &[0x05, 0xdc], b"1500", b"1500")?;
    let great = [0, 0x20, 0, 0, 0, 0, 0, 0];
    assert_reads(
        &rt,
        alloc,
        eight,
        &great,
        b"9007199254740992",
        b"\"9007199254740992\"",
    )?;
    let address = ElementKind::Plain(Kind::Ipv4);
    assert_reads(
        &rt,
        alloc,
        address,
        &[192, 0, 2, 1],
        b"192.0.2.1",
        b"\"192.0.2.1\"",
    )?;
    assert_reads(
        &rt,
        alloc,
        address,
        &[192, 0, 2],
        b"?0xc00002",
        b"\"?0xc00002\"",
    )?;
    let octets = ElementKind::Plain(Kind::Octets);
    assert_reads(&rt, alloc, octets, &[3, 1], b"0x0301", b"\"0x0301\"")?;
    Ok(())
}

// A writer that takes nothing.
#[derive(Drop)]
struct Full;

impl Write for Full {
    fn write(&mut self, _buf: &[u8]) -> io::Result<usize> {
        Err(ErrorKind::StorageFull.into())
    }

    fn flush(&mut self) -> io::Result<()> {
        Ok(())
    }
}

#[test]
fn a_fault_of_the_writer_is_told(rt: HostRuntime) {
    assert!(rt; write_value(ElementKind::Text, b"eth0", &mut Full).is_err());
    assert!(rt; write_value(ElementKind::Micros, &[0; 8], &mut Full).is_err());
    assert!(rt; write_json_value(ElementKind::Boolean, &[3], &mut Full).is_err());
}
