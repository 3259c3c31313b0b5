//! What is answered where memory runs out.

use crate::octets::CHANGES_256;
use ipfix_datagrams::{KnownTemplates, Reading, WithdrawnTemplate, read_datagram};
use ipfix_message::{Domains, MessageFault, header_of};
use std::collections::BTreeMap;
use std::test::*;
use worked_examples::flows::ONE_FLOW;

// A refused allocation refuses the datagram, and the templates in force stay.
#[test]
fn reading_survives_refused_memory(rt: HostRuntime) -> Result<(), Fail> {
    let mut domains = Domains::new(rt.alloc());
    let _ = domains.decode(rt.alloc(), ONE_FLOW)?;
    let header = header_of(CHANGES_256)?;
    match read_datagram(
        rt.alloc(),
        &domains,
        &KnownTemplates::new(rt.alloc(), 16_384, 0),
        &BTreeMap::new(rt.alloc()),
        &[],
        &header,
        CHANGES_256,
    ) {
        Ok(Reading::Kept(reading)) => {
            let expected = WithdrawnTemplate {
                id: 256,
                is_options: false,
            };
            assert_eq!(rt; reading.withdrawn.as_slice(), [expected].as_slice());
            let _ = eprintln!(rt; "read: right");
        }
        Ok(_) => return Err(Fail::from("not kept")),
        Err(fault) => {
            assert_eq!(rt; fault, MessageFault::OutOfMemory);
            let _ = eprintln!(rt; "read: OutOfMemory");
        }
    }
    assert_eq!(rt;
        domains.lookup(1, 256).map(|template| template.specs.len()),
        Some(4)
    );
    Ok(())
}
