//! What is answered where memory runs out: `tests/gate/refusals` refuses each allocation of
//! this call in turn.

use crate::tests::{BY_NETWORK, by_network};
use flow_plan::{PlanTextFault, read_plan};
use std::test::*;

#[test]
fn read_plan_with_refused_memory(rt: HostRuntime) -> Result<(), Fail> {
    match read_plan(rt.alloc(), BY_NETWORK) {
        Ok(plan) => {
            assert!(rt; plan == by_network(rt.alloc())?);
            let _ = eprintln!(rt; "read_plan: right");
        }
        Err(fault) => {
            assert_eq!(rt; fault, PlanTextFault::OutOfMemory);
            let _ = eprintln!(rt; "read_plan: OutOfMemory");
        }
    }
    Ok(())
}
