//! How many datagrams were dropped, by texts of a system (Linux 6.18) on which three sockets were open. Of one of them with a
//! small buffer, 20 datagrams came and 3 were taken.

use recording_sockets::{drops_of, option_value};
use std::test::*;

const UDP: &str =
    "   sl  local_address rem_address   st tx_queue rx_queue tr tm->when retrnsmt   uid  timeout inode ref pointer drops            \n\
10722: 00000000:87A7 00000000:0000 07 00000000:00000000 00:00000000 00000000     0        0 53241 2 00000000eb357f48 0         \n\
13502: 0100007F:1283 00000000:0000 07 00000000:00001B00 00:00000000 00000000     0        0 53240 2 0000000073924d1e 17        \n\
13503: 00000000:1284 00000000:0000 07 00000000:00000000 00:00000000 00000000     0        0 53242 2 0000000055837e8e 0         \n";

const UDP6: &str =
    "  sl  local_address                         remote_address                        st tx_queue rx_queue tr tm->when retrnsmt   uid  timeout inode ref pointer drops\n\
13504: 00000000000000000000000000000000:1285 00000000000000000000000000000000:0000 07 00000000:00000000 00:00000000 00000000     0        0 53243 2 00000000b1aee8c5 0\n";

#[test]
fn drops_of_a_socket(rt: HostRuntime) -> Result<(), Fail> {
    assert_eq!(rt; drops_of(UDP, 53_240), Some(17));
    assert_eq!(rt; drops_of(UDP, 53_241), Some(0));
    assert_eq!(rt; drops_of(UDP6, 53_243), Some(0));
    Ok(())
}

#[test]
fn no_drops_of_others(rt: HostRuntime) -> Result<(), Fail> {
    // Another socket, numbers that stand elsewhere in the line, and a text without lines.
    for inode in [53_243, 0, 2, 17, 13_502] {
        assert_eq!(rt; drops_of(UDP, inode), None);
    }
    assert_eq!(rt; drops_of("", 0), None);
    Ok(())
}

#[test]
fn no_number_of_drops(rt: HostRuntime) -> Result<(), Fail> {
    let most = "1: a b c d e f g h 7 2 p 18446744073709551615";
    assert_eq!(rt; drops_of(most, 7), Some(u64::MAX));
    for line in [
        "1: a b c d e f g h 7 2 p 18446744073709551616",
        "1: a b c d e f g h 7 2 p +1",
        "1: a b c d e f g h 7 2 p 01",
        "1: a b c d e f g h 7 2 p",
        "1: a b c d e f g h 07 2 p 1",
    ] {
        assert_eq!(rt; drops_of(line, 7), None);
    }
    Ok(())
}

#[test]
fn octets_of_an_option(rt: HostRuntime) -> Result<(), Fail> {
    let value = option_value(0x0102_0304);
    assert_eq!(rt;
        i32::from_ne_bytes([value[0], value[1], value[2], value[3]]),
        0x0102_0304
    );
    assert!(rt; value[4..].iter().all(|octet| *octet == 0));
    Ok(())
}
