// The table of worked values, run.
use crate::reference::{Eax, bytes};
use crate::wide::Wide;
use block::block::Block;
use block::kinds::{Block8, Block16};
use cipher::bench::Bench;
use cipher::cipher::Cipher;
use cipher::load::{Keyed, load};
use mode::table::table;
use mode::worked::{BlockRow, OpenRow, SealRow, Worked};
use std::alloc::Global;
use std::process::Abort;
use std::test::Fail;

fn check_bytes<B: Block>(
    rt: &impl Abort,
    heap: Global,
    block: B,
    answer: &[u8],
) -> Result<(), Fail> {
    assert_eq!(rt; bytes(heap, block)?.as_slice(), answer);
    Ok(())
}

// What an operation makes of a row's block.
fn check_block<B: Block, F: Fn(B) -> B>(
    rt: &impl Abort,
    heap: Global,
    row: BlockRow,
    operation: F,
) -> Result<(), Fail>
    requires { F.IsAlwaysCallable operation }
{
    check_bytes(rt, heap, operation(B::from_bytes(row.block)), row.answer)
}

fn check_sealed<C: Cipher>(rt: &impl Abort, eax: &Eax<'_, C>, row: SealRow) -> Result<(), Fail> {
    let sealed = eax.record(row.nonce, row.header).seal(row.message)?;
    assert_eq!(rt; sealed.ciphertext.as_slice(), row.ciphertext);
    check_bytes(rt, eax.heap, sealed.tag_block, row.tag_block)
}

fn check_opened<C: Cipher>(rt: &impl Abort, eax: &Eax<'_, C>, row: OpenRow) -> Result<(), Fail> {
    let record = eax.record(row.nonce, row.header);
    match record.open(row.ciphertext, row.tag)? {
        Ok(message) => assert_eq!(rt; Ok(message.as_slice()), row.answer),
        Err(fault) => assert_eq!(rt; Err(fault), row.answer),
    }
    Ok(())
}

fn check_row(
    rt: &impl Abort,
    eax: &Eax<'_, Bench>,
    eax16: &Eax<'_, Wide>,
    row: Worked,
) -> Result<(), Fail> {
    let heap = eax.heap;
    match row {
        Worked::Doubled8(row) => check_block(rt, heap, row, |block: Block8| block.double()),
        Worked::Doubled16(row) => check_block(rt, heap, row, |block: Block16| block.double()),
        Worked::Next8(row) => check_block(rt, heap, row, |block: Block8| block.next()),
        Worked::Cmac(row) => check_bytes(rt, heap, eax.cmac(row.string)?, row.answer),
        Worked::Omac(t, row) => check_bytes(rt, heap, eax.omac(t, row.string)?, row.answer),
        Worked::Sealed(row) => check_sealed(rt, eax, row),
        Worked::Opened(row) => check_opened(rt, eax, row),
        Worked::Sealed16(row) => check_sealed(rt, eax16, row),
    }
}

#[test]
fn worked_values(rt: HostRuntime) -> Result<(), Fail> {
    let heap = rt.alloc();
    let mut bench = Bench::fresh();
    load(&mut bench, &mut [0, 0, 0, 0, 0, 0, 0, 1])?;
    let eax = Eax {
        cipher: &bench,
        heap,
    };
    // With a key of all 00, this cipher adds one.
    let eax16 = Eax {
        cipher: &Wide::fresh(),
        heap,
    };
    for row in table() {
        check_row(&rt, &eax, &eax16, row)?;
    }
    Ok(())
}
