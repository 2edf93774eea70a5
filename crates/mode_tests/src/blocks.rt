// What blocks of both kinds answer at the edges.
use block::block::Block;
use block::kinds::{Block8, Block16};

const LOW: u128 = 0x0102030405060708;

const HIGH: u128 = 0x0102030405060708090A0B0C0D0E0F10;

#[test]
fn doubling(rt: HostRuntime) {
    assert_eq!(rt;
        Block8::from_number(0x4000000000000001).double().number(),
        0x8000000000000002
    );
    assert_eq!(rt;
        Block8::from_number(0x8000000000000001).double().number(),
        0x19
    );
    assert_eq!(rt; Block16::from_number(1 << 126).double().number(), 1 << 127);
    assert_eq!(rt;
        Block16::from_number((1 << 127) + 1).double().number(),
        0x85
    );
}

#[test]
fn adding_one(rt: HostRuntime) {
    assert_eq!(rt;
        Block8::from_number(0x00FF_FFFF).next().number(),
        0x0100_0000
    );
    assert_eq!(rt;
        Block8::from_number(u128::from(u64::MAX)).next().number(),
        0
    );
    assert_eq!(rt;
        Block16::from_number(u128::from(u64::MAX)).next().number(),
        1 << 64
    );
    assert_eq!(rt; Block16::from_number(u128::MAX).next().number(), 0);
}

#[test]
fn bytes_of_a_block(rt: HostRuntime) {
    let low = Block8::from_number(LOW);
    assert_eq!(rt;
        (low.byte(0), low.byte(7), low.byte(8), low.byte(usize::MAX)),
        (1, 8, 0, 0)
    );
    assert_eq!(rt; low.put(0, 0xFF).number(), 0xFF02030405060708);
    assert_eq!(rt; low.put(7, 0).number(), 0x0102030405060700);
    assert_eq!(rt; low.put(8, 0xFF).number(), LOW, "no such place");
    let high = Block16::from_number(HIGH);
    assert_eq!(rt; (high.byte(0), high.byte(15), high.byte(16)), (1, 0x10, 0));
    assert_eq!(rt; high.put(0, 0).number(), HIGH - (1 << 120));
    assert_eq!(rt; high.put(15, 0x11).number(), HIGH + 1);
    assert_eq!(rt; high.put(16, 0xFF).number(), HIGH, "no such place");
}

#[test]
fn small_blocks(rt: HostRuntime) {
    assert_eq!(rt; (Block8::zero().number(), Block16::zero().number()), (0, 0));
    assert_eq!(rt;
        (Block8::ending(2).number(), Block16::ending(0xFF).number()),
        (2, 0xFF)
    );
    assert_eq!(rt; (Block8::width(), Block16::width()), (8, 16));
    assert_eq!(rt;
        Block8::from_number(HIGH).number(),
        HIGH % (1 << 64),
        "modulo 2 to the power 64"
    );
    assert_eq!(rt;
        Block16::from_number(HIGH)
            .xor(Block16::from_number(LOW))
            .number(),
        HIGH ^ LOW
    );
}

#[test]
fn from_bytes(rt: HostRuntime) {
    assert_eq!(rt;
        Block8::from_bytes(&[1, 2]).number(),
        0x0102_0000_0000_0000,
        "00 where there are no more"
    );
    assert_eq!(rt;
        Block8::from_bytes(&[1, 2, 3, 4, 5, 6, 7, 8, 9]).number(),
        LOW,
        "the first 8"
    );
}
