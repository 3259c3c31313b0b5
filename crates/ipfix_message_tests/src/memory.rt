//! What is answered where memory runs out: `tests/gate/refusals` refuses each allocation of
//! this call in turn.

use ipfix_message::{Domains, MessageFault};
use ipfix_wire::ElementId;
use std::test::*;
use worked_examples::templates::OPTIONS_TEMPLATE_WITHDRAWAL_UNKNOWN_SET;

#[test]
fn decoding_survives_refused_memory(rt: HostRuntime) {
    let mut domains = Domains::new(rt.alloc());
    match domains.decode(rt.alloc(), OPTIONS_TEMPLATE_WITHDRAWAL_UNKNOWN_SET) {
        Ok(decoded) => {
            assert_eq!(rt; (decoded.records.len(), decoded.unknown_sets), (1, 1));
            assert_eq!(rt; (decoded.skipped_sets, decoded.ignored_withdrawals), (0, 0));
            let record = &decoded.records[0];
            assert_eq!(rt; (record.template, record.scope), (257, 1));
            let count = record.fields.find(ElementId::iana(1));
            assert_eq!(rt; count, Some([0, 0, 0, 9].as_slice()));
            let _ = eprintln!(rt; "decode: right");
        }
        Err(fault) => {
            assert_eq!(rt; fault, MessageFault::OutOfMemory);
            let again = domains.decode(rt.alloc(), &[]).err();
            assert_eq!(rt; again, Some(MessageFault::Spent));
            assert!(rt; domains.lookup(1, 257).is_none());
            let _ = eprintln!(rt; "decode: OutOfMemory");
        }
    }
}
