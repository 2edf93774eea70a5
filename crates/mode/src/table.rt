// The table of worked values: each is proved of the definitions, and run by a test.
ghost use Rattle.mode.specs.Worked.{AllHold};

use crate::worked::{BlockRow, MacRow, OpenRow, SealRow, Worked};
use wire::fault::RecordFault;

pub fn table() -> [Worked; 17]
    ensures { AllHold result }
{
    TABLE
}

const ONE_TO_EIGHT: &[u8] = &[1, 2, 3, 4, 5, 6, 7, 8];

const TABLE: [Worked; 17] = [
    Worked::Doubled16(BlockRow {
        block: &[0x80, 0, 0, 0, 0, 0, 0, 0, 0, 0, 0, 0, 0, 0, 0, 0],
        answer: &[0, 0, 0, 0, 0, 0, 0, 0, 0, 0, 0, 0, 0, 0, 0, 0x87],
    }),
    Worked::Doubled8(BlockRow {
        block: &[0xFF; 8],
        answer: &[0xFF, 0xFF, 0xFF, 0xFF, 0xFF, 0xFF, 0xFF, 0xE5],
    }),
    Worked::Next8(BlockRow {
        block: &[0xFF; 8],
        answer: &[0; 8],
    }),
    Worked::Omac(
        0,
        MacRow {
            string: &[],
            answer: &[0, 0, 0, 0, 0, 0, 0, 0x03],
        },
    ),
    Worked::Omac(
        1,
        MacRow {
            string: &[],
            answer: &[0, 0, 0, 0, 0, 0, 0, 0x02],
        },
    ),
    Worked::Omac(
        2,
        MacRow {
            string: &[],
            answer: &[0, 0, 0, 0, 0, 0, 0, 0x01],
        },
    ),
    Worked::Omac(
        1,
        MacRow {
            string: ONE_TO_EIGHT,
            answer: &[1, 2, 3, 4, 5, 6, 7, 0x0B],
        },
    ),
    Worked::Sealed(SealRow {
        nonce: &[0xAA],
        header: &[],
        message: &[0x55],
        ciphertext: &[0xFF],
        tag_block: &[0x55, 0, 0, 0, 0, 0, 0, 0],
    }),
    Worked::Sealed(SealRow {
        nonce: &[0xAA],
        header: ONE_TO_EIGHT,
        message: &[0x55],
        ciphertext: &[0xFF],
        tag_block: &[0x54, 2, 3, 4, 5, 6, 7, 9],
    }),
    Worked::Sealed(SealRow {
        nonce: &[0xAA],
        header: &[],
        message: &[0; 9],
        ciphertext: &[0xAA, 0x80, 0, 0, 0, 0, 0, 0x05, 0xAA],
        tag_block: &[0xAA, 0x80, 0, 0, 0, 0, 0, 0x04],
    }),
    Worked::Opened(OpenRow {
        nonce: &[0xAA],
        header: &[],
        ciphertext: &[0xFF],
        tag: &[0x55, 0, 0, 0],
        answer: Ok(&[0x55]),
    }),
    Worked::Opened(OpenRow {
        nonce: &[0xAA],
        header: &[],
        ciphertext: &[0xFF],
        tag: &[0x55, 0, 0, 1],
        answer: Err(RecordFault::TagWrong),
    }),
    Worked::Opened(OpenRow {
        nonce: &[0xAA],
        header: &[],
        ciphertext: &[0xFF],
        tag: &[0x55, 0, 0, 0, 0, 0, 0, 0],
        answer: Ok(&[0x55]),
    }),
    Worked::Opened(OpenRow {
        nonce: &[0xAA],
        header: &[],
        ciphertext: &[0xFF],
        tag: &[0x55, 0, 0],
        answer: Err(RecordFault::TagLength),
    }),
    Worked::Opened(OpenRow {
        nonce: &[0xAA],
        header: &[],
        ciphertext: &[0xFF],
        tag: &[0x55, 0, 0, 0, 0, 0, 0, 0, 0],
        answer: Err(RecordFault::TagLength),
    }),
    Worked::Cmac(MacRow {
        string: &[],
        answer: &[0x80, 0, 0, 0, 0, 0, 0, 0x05],
    }),
    Worked::Sealed16(SealRow {
        nonce: b"\xFF\xFF\xFF\xFF\xFF\xFF\xFF\xFF\xFF\xFF\xFF\xFF\xFF\xFF\xFF\xFE",
        header: b"\x01\x02\x03\x04\x05\x06\x07\x08\x09\x0A\x0B\x0C\x0D\x0E\x0F\x10\x11\x12\x13\x14\x15\x16\x17\x18",
        message: &[0; 17],
        ciphertext: b"\xFF\xFF\xFF\xFF\xFF\xFF\xFF\xFF\xFF\xFF\xFF\xFF\xFF\xFF\xFF\xFF\x00",
        tag_block: b"\x10\x90\x10\x10\x10\x10\x10\x10\x89\x0A\x0B\x0C\x0D\x0E\x0F\x1C",
    }),
];
