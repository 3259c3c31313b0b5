//! What stands in the files of each peer.

use super::running::*;
use std::test::*;
use worked_examples::faults::VERSION_9;
use worked_examples::recordings::{FIRST_OF_1, FIRST_OF_2};

// Two peers in turn, out of one source: the files of each hold its own datagrams as they came.
#[test]
fn each_has_its_own_files(rt: HostRuntime) -> Result<(), Fail> {
    let alloc = rt.alloc();
    let mut source = source_of(alloc, &[(1, FIRST_OF_1), (2, FIRST_OF_2)])?;
    let mut peers = two_peers(&rt)?;
    assert_eq!(rt; receive_all(alloc, &mut source, &mut peers), 2);
    assert!(rt; has(&peers, 1, FIRST_OF_1));
    assert!(rt; has(&peers, 2, FIRST_OF_2));
    Ok(())
}

// A datagram of version 9 after another is refused and counted, and changes nothing.
#[test]
fn refused_is_counted(rt: HostRuntime) -> Result<(), Fail> {
    let alloc = rt.alloc();
    let mut peers = two_peers(&rt)?;
    let first = record(alloc, &mut peers, 1, FIRST_OF_1, 1000);
    assert_eq!(rt; first, (Answer::Taken, None));
    let second = record(alloc, &mut peers, 1, VERSION_9, 1000);
    assert_eq!(rt; second, (Answer::Taken, None));
    assert!(rt; has(&peers, 1, FIRST_OF_1));
    assert_eq!(rt; refused_in_turn(alloc, &mut peers), Some(1));
    assert!(rt; has(&peers, 1, &[]));
    Ok(())
}
