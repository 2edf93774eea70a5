// A record's fault, carried by `?` into the frame's and the pass's.
use std::test::*;
use wire::fault::{Cause, FrameFault, PassFault, RecordFault, at};

fn of_record() -> Result<(), RecordFault> {
    Err(RecordFault::TagWrong)
}

fn of_frame() -> Result<(), Cause> {
    Ok(of_record()?)
}

fn at_place() -> Result<(), FrameFault> {
    Ok(at(of_frame(), 26)?)
}

fn of_pass() -> Result<(), PassFault> {
    Ok(at(at_place(), 3)?)
}

#[test]
fn carried_whole(rt: HostRuntime) -> Result<(), Fail> {
    let cause = Cause::Record(RecordFault::TagWrong);
    let fault = PassFault {
        fault: FrameFault { cause, place: 26 },
        frame: 3,
    };
    assert_eq!(rt; of_pass(), Err(fault));
    assert_eq!(rt; fault.number(), 6);
    Ok(())
}
