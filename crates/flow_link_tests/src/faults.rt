use flow_link::*;
use std::test::Fail;

#[test]
fn faults_have_numbers_and_names(rt: HostRuntime) -> Result<(), Fail> {
    let faults = [
        (LinkFault::Capacity, 1, "Capacity"),
        (LinkFault::OutOfMemory, 2, "OutOfMemory"),
    ];
    for (fault, number, name) in faults {
        assert!(rt; fault.number() == number && fault.name() == name);
    }
    let (sender, receiver) = link(rt.alloc(), 1)?;
    let fault = SettleFault::OutOfMemory(sender, receiver);
    assert!(rt; fault.number() == 2 && fault.name() == "OutOfMemory");
    Ok(())
}
