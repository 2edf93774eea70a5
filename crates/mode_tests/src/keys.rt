// Loading a key, at every count of key bytes, into ciphers of both widths.
use crate::wide::Wide;
use block::block::Block;
use cipher::bench::Bench;
use cipher::cipher::Cipher;
use cipher::load::{Keyed, load};
use std::alloc::Global;
use std::process::Abort;
use std::test::Fail;
use wire::fault::RecordFault;
use wire::kind::Kind;

// What a cipher makes of the zero block, as a number.
fn of_zero<C: Cipher>(cipher: &C) -> u128 {
    cipher.encrypt(C::Block::zero()).number()
}

#[test]
fn fresh_key_is_zero(rt: HostRuntime) {
    assert_eq!(rt; of_zero(&Bench::fresh()), 0);
    assert_eq!(rt; of_zero(&Wide::fresh()), 1, "F adds one");
}

// Loads `len` bytes A5, and checks the answer and that the bytes end as 00.
fn check_load<C: Keyed>(
    rt: &impl Abort,
    heap: Global,
    cipher: &mut C,
    len: usize,
) -> Result<(), Fail> {
    let mut key = vec![in heap; 0xA5u8; len]?;
    let answer = load(cipher, key.as_mut_slice());
    if len == C::KEY_LEN {
        assert_eq!(rt; answer, Ok(len));
    } else {
        assert_eq!(rt; answer, Err(RecordFault::KeyLength));
    }
    for byte in key.as_slice() {
        assert_eq!(rt; *byte, 0, "the key bytes end as 00");
    }
    Ok(())
}

#[test]
fn every_length(rt: HostRuntime) -> Result<(), Fail> {
    for len in 0..=40 {
        let mut bench = Bench::fresh();
        check_load(&rt, rt.alloc(), &mut bench, len)?;
        assert_eq!(rt;
            of_zero(&bench),
            if len == 8 { 0xA5A5A5A5A5A5A5A5 } else { 0 }
        );
        let mut wide = Wide::fresh();
        check_load(&rt, rt.alloc(), &mut wide, len)?;
        assert_eq!(rt;
            of_zero(&wide),
            if len == 16 {
                0xA5A5A5A5A5A5A5A5A5A5A5A5A5A5A5A6
            } else {
                1
            }
        );
    }
    Ok(())
}

// A refusal leaves the key that was there; another key takes its place whole.
#[test]
fn loaded_again(rt: HostRuntime) -> Result<(), Fail> {
    let mut bench = Bench::fresh();
    load(&mut bench, &mut [1, 2, 3, 4, 5, 6, 7, 8])?;
    assert_eq!(rt; load(&mut bench, &mut [9; 7]), Err(RecordFault::KeyLength));
    assert_eq!(rt; of_zero(&bench), 0x0102030405060708);
    load(&mut bench, &mut [0, 0, 0, 0, 0, 0, 0, 9])?;
    assert_eq!(rt; of_zero(&bench), 9);
    Ok(())
}

// What a cipher names, as code reads it that knows only the trait.
fn check_names<C: Keyed>(rt: &impl Abort, kind: u8, n: usize, key_len: usize) {
    assert_eq!(rt;
        (u8::from(Kind::Sealed(C::SUITE)), C::N, C::KEY_LEN),
        (kind, n, key_len)
    );
}

#[test]
fn names(rt: HostRuntime) {
    check_names::<Bench>(&rt, 3, 8, 8);
    check_names::<Wide>(&rt, 1, 16, 16);
}
