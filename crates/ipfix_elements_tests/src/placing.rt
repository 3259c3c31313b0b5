use ipfix_elements::{place, place_decimal, place_ipv4};
use std::test::Fail;

/// Where the tests put octets, with others before and after them.
const PLACE: usize = 2;

/// Room before anything is put there.
const ROOM: [u8; 32] = [b'#'; 32];

// Whether the text stands at its place, up to this end, and nothing else.
fn stands(room: &[u8], end: usize, text: &[u8]) -> bool {
    let before = room.get(..PLACE) == Some(b"##");
    let behind = match room.get(end..) {
        Some(octets) => octets.iter().all(|octet| *octet == b'#'),
        None => false,
    };
    before && behind && room.get(PLACE..end) == Some(text)
}

fn number_stands(number: u64, text: &[u8]) -> bool {
    let mut room = ROOM;
    let end = place_decimal(number, &mut room, PLACE);
    stands(&room, end, text)
}

fn address_stands(address: &[u8; 4], text: &[u8]) -> bool {
    let mut room = ROOM;
    let end = place_ipv4(address, &mut room, PLACE);
    stands(&room, end, text)
}

#[test]
fn octets_stand_at_their_place(rt: HostRuntime) -> Result<(), Fail> {
    let mut room = ROOM;
    let end = place(b"IPFIX", &mut room, PLACE);
    assert!(rt; stands(&room, end, b"IPFIX"));
    let end = place(b"", &mut room, end);
    assert!(rt; stands(&room, end, b"IPFIX"));
    Ok(())
}

#[test]
fn numbers_have_all_their_digits_and_no_zeros_before(rt: HostRuntime) -> Result<(), Fail> {
    assert!(rt; number_stands(0, b"0"));
    assert!(rt; number_stands(9, b"9"));
    assert!(rt; number_stands(10, b"10"));
    assert!(rt; number_stands(99, b"99"));
    assert!(rt; number_stands(100, b"100"));
    assert!(rt; number_stands(1_000_000, b"1000000"));
    assert!(rt; number_stands(u64::MAX, b"18446744073709551615"));
    Ok(())
}

#[test]
fn octets_of_an_address_have_one_to_three_digits(rt: HostRuntime) -> Result<(), Fail> {
    assert!(rt; address_stands(&[192, 0, 2, 1], b"192.0.2.1"));
    assert!(rt; address_stands(&[198, 51, 100, 9], b"198.51.100.9"));
    assert!(rt; address_stands(&[10, 99, 200, 0], b"10.99.200.0"));
    assert!(rt; address_stands(&[0, 0, 0, 0], b"0.0.0.0"));
    assert!(rt; address_stands(&[255, 255, 255, 255], b"255.255.255.255"));
    Ok(())
}
