// A block of 16 bytes.
ghost use Rattle.std.specs.Prelude.{◌^◌, ◌<◌};

#[derive(Clone, Copy, PartialEq, Eq, Debug)]
pub struct Block16 {
    pub(crate) number: u128,
    // known of every `u128`; said here, it is known of every block
    ghost fits: { number < 2 ^ 128 },
}
