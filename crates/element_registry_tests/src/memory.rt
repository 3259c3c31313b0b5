//! What is answered where memory runs out: `tests/gate/refusals` refuses each allocation of
//! this call in turn.

use crate::tests::{IANA, OF_IANA, read};
use element_registry::ElementsFault;
use std::test::*;

#[test]
fn add_file_with_refused_memory(rt: HostRuntime) -> Result<(), Fail> {
    match read(rt.alloc(), IANA) {
        Ok(elements) => {
            assert_eq!(rt; elements.entries().len(), OF_IANA.len());
            let _ = eprintln!(rt; "add_file: right");
        }
        Err(fault) => {
            assert_eq!(rt; fault, ElementsFault::OutOfMemory);
            let _ = eprintln!(rt; "add_file: OutOfMemory");
        }
    }
    Ok(())
}
