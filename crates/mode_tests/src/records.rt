// A record under blocks of 16 bytes. The values were made by another program, in another language.
use crate::reference::{Eax, bytes};
use crate::wide::Wide;
use block::block::Block;
use cipher::load::{Keyed, load};
use std::process::Abort;
use std::test::Fail;
use wire::fault::RecordFault;

// The N-block of this nonce is sixteen FF, so that the counter's carry runs through the whole block.
const NONCE: &[u8] = b"\xFF\xFF\xFF\xFF\xFF\xFF\xFF\xFF\xFF\xFF\xFF\xFF\xFF\xFF\xFF\x7E";

// One block and a half.
const HEADER: &[u8] =
    b"\x01\x02\x03\x04\x05\x06\x07\x08\x09\x0A\x0B\x0C\x0D\x0E\x0F\x10\x11\x12\x13\x14\x15\x16\x17\x18";

// Of a message of seventeen 00.
const CIPHERTEXT: &[u8] = b"\x7F\xFF\xFF\xFF\xFF\xFF\xFF\xFF\xFF\xFF\xFF\xFF\xFF\xFF\xFF\xFF\x80";

const TAG_BLOCK: &[u8] = b"\x10\x90\x10\x10\x10\x10\x10\x10\x89\x0A\x0B\x0C\x0D\x0E\x0F\x15";

fn keyed() -> Result<Wide, Fail> {
    let mut wide = Wide::fresh();
    load(
        &mut wide,
        &mut [0x80, 0, 0, 0, 0, 0, 0, 0, 0, 0, 0, 0, 0, 0, 0, 1],
    )?;
    Ok(wide)
}

#[test]
fn sealed(rt: HostRuntime) -> Result<(), Fail> {
    let wide = keyed()?;
    let eax = Eax {
        cipher: &wide,
        heap: rt.alloc(),
    };
    let sealed = eax.record(NONCE, HEADER).seal(&[0; 17])?;
    assert_eq!(rt; sealed.ciphertext.as_slice(), CIPHERTEXT);
    assert_eq!(rt; bytes(rt.alloc(), sealed.tag_block)?.as_slice(), TAG_BLOCK);
    Ok(())
}

// What opening answers, with the message checked where there is one.
fn verdict(
    rt: &impl Abort,
    eax: &Eax<'_, Wide>,
    header: &[u8],
    tag: &[u8],
) -> Result<Result<(), RecordFault>, Fail> {
    let opened = eax.record(NONCE, header).open(CIPHERTEXT, tag)?;
    if let Ok(message) = &opened {
        assert_eq!(rt; message.as_slice(), [0; 17].as_slice());
    }
    Ok(opened.map(|_| ()))
}

#[test]
fn opened(rt: HostRuntime) -> Result<(), Fail> {
    let wide = keyed()?;
    let eax = Eax {
        cipher: &wide,
        heap: rt.alloc(),
    };
    let (length, wrong) = (RecordFault::TagLength, RecordFault::TagWrong);
    assert_eq!(rt; (length.number(), wrong.number()), (5, 6));
    assert_eq!(rt; verdict(&rt, &eax, HEADER, TAG_BLOCK)?, Ok(()));
    assert_eq!(rt; verdict(&rt, &eax, HEADER, &TAG_BLOCK[0..4])?, Ok(()));
    assert_eq!(rt; verdict(&rt, &eax, HEADER, &TAG_BLOCK[0..3])?, Err(length));
    assert_eq!(rt; verdict(&rt, &eax, HEADER, &[0; 17])?, Err(length));
    assert_eq!(rt;
        verdict(&rt, &eax, HEADER, &[0x10, 0x90, 0x10, 0x11])?,
        Err(wrong)
    );
    assert_eq!(rt; verdict(&rt, &eax, &HEADER[0..16], TAG_BLOCK)?, Err(wrong));
    Ok(())
}
