//! How many of a text's first octets are whole messages (RFC 7011, section 3.1), counted by hand.

use ipfix_session::whole_messages;

#[test]
fn octets_of_whole_messages_are_counted(rt: HostRuntime) {
    let message = b"\x00\x0a\x00\x12\0\0\0\0\0\0\0\0\0\0\0\0ab";
    let malformed = b"\x00\x09\x00\x12\0\0\0\0\0\0\0\0\0\0\0\0ab";
    let mut text = Vec::new(rt.alloc());
    for (octets, whole) in [(&message[..], 18), (&message[..], 36), (&message[..17], 36)] {
        assert!(rt; text.extend_from_slice(octets).is_ok());
        let mut reader = text.as_slice();
        assert!(rt; matches!(whole_messages(rt.alloc(), &mut reader), Ok(count) if count == whole));
    }
    let mut reader = &malformed[..];
    assert!(rt; matches!(whole_messages(rt.alloc(), &mut reader), Ok(0)));
}
