//! The worked examples of spellings, and each public function once.

use ipfix_wire::{
    ElementId, Header, SetSpan, Spec, WireFault, read_header, read_length, read_set, read_spec,
    write_header, write_length, write_set, write_spec,
};
use std::alloc::AllocError;
use std::test::Fail;

// The header of a message of 68 octets in domain 1.
const HEADER: [u8; 16] = [
    0x00, 0x0a, 0x00, 0x44, 0x65, 0x53, 0xf1, 0x00, 0, 0, 0, 0, 0, 0, 0, 1,
];

#[test]
fn writes_and_reads_headers(rt: HostRuntime) -> Result<(), Fail> {
    let header = Header {
        length: 68,
        export_time: 1_700_000_000,
        sequence: 0,
        domain: 1,
    };
    let mut out = Vec::new(rt.alloc());
    write_header(&header, &mut out)?;
    assert_eq!(rt; out.as_slice(), HEADER.as_slice());
    assert_eq!(rt; read_header(&HEADER), Ok(header));
    Ok(())
}

#[test]
fn refuses_faulty_headers(rt: HostRuntime) {
    for (at, octet, fault) in [
        (1, 9, WireFault::Version),
        (3, 15, WireFault::MessageLength),
    ] {
        let mut octets = HEADER;
        octets[at] = octet;
        assert_eq!(rt; read_header(&octets), Err(fault), "{octet} at {at}");
    }
}

#[test]
fn writes_a_set(rt: HostRuntime) -> Result<(), Fail> {
    let mut out = Vec::new(rt.alloc());
    write_set(256, 40, &mut out)?;
    assert_eq!(rt; out.as_slice(), [0x01, 0x00, 0x00, 0x2c].as_slice());
    Ok(())
}

#[test]
fn reads_sets(rt: HostRuntime) {
    for (octets, answer) in [
        ([0x01, 0x00, 0x00, 0x2c], Err(WireFault::SetLength)),
        ([0, 2, 0, 4], Ok(SetSpan { id: 2, body: 0 })),
        ([0, 2, 0, 3], Err(WireFault::SetLength)),
    ] {
        assert_eq!(rt; read_set(&octets), answer, "{octets:?}");
    }
}

#[test]
fn refuses_a_cut_set_header(rt: HostRuntime) {
    assert_eq!(rt; read_set(&[0, 2, 0]), Err(WireFault::SetHeader));
}

const SPEC: Spec = Spec {
    element: ElementId {
        pen: 32473,
        number: 1,
    },
    width: 65535,
};

const SPEC_OCTETS: [u8; 8] = [0x80, 0x01, 0xff, 0xff, 0x00, 0x00, 0x7e, 0xd9];

#[test]
fn writes_a_specifier(rt: HostRuntime) -> Result<(), Fail> {
    let mut out = Vec::new(rt.alloc());
    write_spec(&SPEC, &mut out)?;
    assert_eq!(rt; out.as_slice(), SPEC_OCTETS.as_slice());
    Ok(())
}

#[test]
fn reads_specifiers(rt: HostRuntime) {
    // An enterprise bit with enterprise number 0 is read as no bit.
    let iana = Spec {
        element: ElementId::iana(1),
        width: 4,
    };
    let cases: [(&[u8], Option<(Spec, usize)>); 3] = [
        (&SPEC_OCTETS, Some((SPEC, 8))),
        (&[0x80, 0x01, 0x00, 0x04, 0x00, 0x00], None),
        (&[0x80, 1, 0, 4, 0, 0, 0, 0], Some((iana, 8))),
    ];
    for (octets, wanted) in cases {
        assert_eq!(rt; read_spec(octets), wanted, "{octets:?}");
    }
}

fn length_octets(rt: &HostRuntime, length: u16) -> Result<Vec<u8>, AllocError> {
    let mut out = Vec::new(rt.alloc());
    write_length(length, &mut out)?;
    Ok(out)
}

#[test]
fn writes_lengths(rt: HostRuntime) -> Result<(), Fail> {
    let cases: [(u16, &[u8]); 3] = [(5, &[0x05]), (254, &[0xfe]), (255, &[0xff, 0x00, 0xff])];
    for (length, wanted) in cases {
        let octets = length_octets(&rt, length)?;
        assert_eq!(rt; octets.as_slice(), wanted, "{length}");
    }
    Ok(())
}

#[test]
fn reads_lengths(rt: HostRuntime) {
    let cases: [(&[u8], Option<(usize, usize)>); 3] = [
        (&[0xff, 0x00, 0x05], Some((5, 3))),
        (&[0xff, 0x00], None),
        (&[0x05], Some((5, 1))),
    ];
    for (octets, wanted) in cases {
        assert_eq!(rt; read_length(octets), wanted, "{octets:?}");
    }
}

#[test]
fn faults_have_numbers_and_names(rt: HostRuntime) {
    for (fault, number, name) in [
        (WireFault::Version, 1, "Version"),
        (WireFault::MessageLength, 2, "MessageLength"),
        (WireFault::SetHeader, 3, "SetHeader"),
        (WireFault::SetLength, 4, "SetLength"),
    ] {
        assert_eq!(rt; (fault.number(), fault.name()), (number, name));
    }
}
