//! What is answered where memory runs out: `tests/gate/refusals` refuses each allocation of
//! these calls in turn.

use super::calling::table_of_both;
use super::records::{by_source, flow, text_of};
use flow_table::{Method, Plan, PlanFault};
use std::alloc::Global;
use std::test::*;

const ROWS: &str = "0:192.0.2.1=9,2;1:192.0.2.1=3,1;";

// How the calls were answered that make the table of two flows of one key, each of which is added to a
// partial table of its own. The second is shared by the first two minutes.
fn word_of_both(alloc: Global, plan: &Plan) -> Result<&'static str, Fail> {
    let one = flow(alloc, 0, 1, 5)?;
    let two = flow(alloc, 59_999, 60_000, 7)?;
    let table = match table_of_both(alloc, plan, &one, &two) {
        Ok(table) => table,
        Err(fault) => return Ok(fault.name()),
    };
    let text = text_of(alloc, &table.rows)?;
    Ok(if text.as_str() == ROWS {
        "right"
    } else {
        "wrong"
    })
}

#[test]
fn partials_with_refused_memory(rt: HostRuntime) -> Result<(), Fail> {
    let alloc = rt.alloc();
    let plan = match by_source(alloc, Method::Uniform) {
        Ok(plan) => plan,
        Err(fault) => {
            assert_eq!(rt; fault, PlanFault::OutOfMemory);
            let _ = eprintln!(rt; "Plan::new: OutOfMemory");
            return Ok(());
        }
    };
    let word = word_of_both(alloc, &plan)?;
    assert!(rt; matches!(word, "right" | "OutOfMemory"));
    let _ = eprintln!(rt; "Partial: {word}");
    Ok(())
}
