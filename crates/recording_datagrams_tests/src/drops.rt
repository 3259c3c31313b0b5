//! What is told of datagrams that the system dropped.

use recording_datagrams::SocketDrops;
use recording_lines::WholeLines;
use std::alloc::Global;
use std::net::{IpAddr, Ipv4Addr, SocketAddr};
use std::test::*;
use worked_examples::FailingWriter;

const LINES: &str = "collectd: udp: 192.0.2.1:4739: dropped 17 by the system
collectd: udp: 192.0.2.1:4739: dropped 1 by the system
collectd: udp: 192.0.2.1:4739: dropped 2 by the system
";

// None, 17, none more, one more; fewer than were told, as where the system counts anew; and two more than those.
#[test]
fn each_is_told_once(rt: HostRuntime) -> Result<(), Fail> {
    let alloc: Global = rt.alloc();
    let mut written = FailingWriter::new(alloc, 1000, 100);
    let mut out = WholeLines::new(&mut written);
    let mut drops = SocketDrops {
        address: SocketAddr::new(IpAddr::V4(Ipv4Addr::new(192, 0, 2, 1)), 4739),
        inode: 7,
        dropped: 0,
    };
    for dropped in [0, 17, 17, 18, 5, 7] {
        drops.tell(dropped, &mut out)?;
    }
    assert_eq!(rt; written.taken.as_slice(), LINES.as_bytes());
    Ok(())
}
