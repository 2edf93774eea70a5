// A block of 8 bytes. It has a type of its own, of 64 bits: in one of 128 bits, sealing takes half as long again or more.
ghost use Rattle.std.specs.Prelude.{◌^◌, ◌<◌};

#[derive(Clone, Copy, PartialEq, Eq, Debug)]
pub struct Block8 {
    pub(crate) number: u64,
    // known of every `u64`; said here, it is known of every block
    ghost fits: { number < 2 ^ 64 },
}
