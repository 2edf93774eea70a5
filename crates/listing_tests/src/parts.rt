// What the walk hands out, part by part, and what it refuses, value by value.
ghost use Rattle.std.specs.Prelude.{◌+◌, ◌^◌, ◌<◌, length};

use pass::frame::Content;
use pass::walk::Walk;
use std::test::*;
use wire::fault::{Cause, FrameFault, PassFault};
use wire::kind::Suite;

// An idle frame with fill 55 56, and a bench frame with a byte each of nonce, header and body.
const FILE: [u8; 25] = [
    0x55, 0x56, 0, 0, 0, 0, 0, 2, 0, 0xA7, // idle
    0xAA, 0xBB, 0xFF, 1, 2, 3, 4, 1, 4, 0, 1, 0, 1, 3, 0xA7, // bench
];

// A caller that holds a walk, and calls nothing, knows that its number cannot overflow.
fn few_are_left(walk: &Walk<'_>)
    ensures { walk.now.point.number + length walk.now.point.rest < 2 ^ 64 }
{}

#[test]
fn sealed_parts(rt: HostRuntime) -> Result<(), Fail> {
    let mut walk = Walk::new(&FILE);
    few_are_left(&walk);
    let frame = walk.next_frame()?.ok_or("no frame")?;
    let content = Content::Sealed {
        suite: Suite::Bench,
        nonce: &[0xAA],
        header: &[0xBB],
        body: &[0xFF],
        tag: &[1, 2, 3, 4],
    };
    assert_eq!(rt; frame.content(), content);
    assert_eq!(rt; (frame.number(), frame.place(), frame.len()), (0, 10, 15));
    Ok(())
}

#[test]
fn idle_fill(rt: HostRuntime) -> Result<(), Fail> {
    let mut walk = Walk::new(&FILE[0..10]);
    let frame = walk.next_frame()?.ok_or("no frame")?;
    let fill = &[0x55, 0x56];
    assert_eq!(rt; frame.content(), Content::Idle { fill });
    assert_eq!(rt; walk.next_frame(), Ok(None), "none at the file's start");
    assert_eq!(rt; walk.next_frame(), Ok(None), "none again");
    assert_eq!(rt; (walk.left(), walk.count()), (0, 1));
    Ok(())
}

// The idle frame less its first byte: its parts are longer than what stands before its trailer.
#[test]
fn fault_stays(rt: HostRuntime) -> Result<(), Fail> {
    let mut walk = Walk::new(&FILE[1..10]);
    let fault = PassFault {
        fault: FrameFault {
            cause: Cause::Overrun,
            place: 1,
        },
        frame: 0,
    };
    assert_eq!(rt; walk.next_frame(), Err(fault));
    assert_eq!(rt; walk.next_frame(), Err(fault), "the same again");
    assert_eq!(rt; (fault.number(), walk.left()), (11, 9));
    Ok(())
}

// The bench frame behind three bytes: too few for a trailer, whose place is then 0.
#[test]
fn short_rest(rt: HostRuntime) -> Result<(), Fail> {
    let mut walk = Walk::new(&FILE[7..25]);
    assert!(rt; walk.next_frame().is_ok());
    let fault = PassFault {
        fault: FrameFault {
            cause: Cause::Short,
            place: 0,
        },
        frame: 1,
    };
    assert_eq!(rt; walk.next_frame(), Err(fault));
    assert_eq!(rt; (walk.left(), walk.count()), (3, 1));
    Ok(())
}
