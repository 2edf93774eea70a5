// A value worked by hand.
use wire::fault::RecordFault;

#[derive(Clone, Copy)]
pub enum Worked {
    Doubled8(BlockRow),
    Doubled16(BlockRow),
    Next8(BlockRow),
    // From here on under the bench cipher with the key 00 00 00 00 00 00 00 01.
    Cmac(MacRow),
    Omac(u8, MacRow),
    Sealed(SealRow),
    Opened(OpenRow),
    // With blocks of 16 bytes, and F(b) = b + 1, which does not commute with xor.
    Sealed16(SealRow),
}

// What an operation makes of a block.
#[derive(Clone, Copy)]
pub struct BlockRow {
    pub block: &'static [u8],
    pub answer: &'static [u8],
}

// The block that is the MAC of a string.
#[derive(Clone, Copy)]
pub struct MacRow {
    pub string: &'static [u8],
    pub answer: &'static [u8],
}

#[derive(Clone, Copy)]
pub struct SealRow {
    pub nonce: &'static [u8],
    pub header: &'static [u8],
    pub message: &'static [u8],
    pub ciphertext: &'static [u8],
    pub tag_block: &'static [u8],
}

// The answer is the message, or the refusal.
#[derive(Clone, Copy)]
pub struct OpenRow {
    pub nonce: &'static [u8],
    pub header: &'static [u8],
    pub ciphertext: &'static [u8],
    pub tag: &'static [u8],
    pub answer: Result<&'static [u8], RecordFault>,
}
