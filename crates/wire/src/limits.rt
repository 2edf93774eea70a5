// How long the parts of a frame may be, in bytes.
ghost use Rattle.std.specs.Prelude.{◌≡◌};
ghost use Rattle.wire.specs.Limits.{is_tag_len_of};

pub const HEADER_MAX: usize = 2048;

// The longest message, and so the longest body of a frame.
pub const MESSAGE_MAX: usize = 4096;

pub const TAG_MIN: usize = 4;

// Whether a tag may have `len` bytes, by the bytes of a block.
pub fn is_tag_len(block_len: usize, len: usize) -> bool
    ensures { result ≡ is_tag_len_of block_len len }
{
    (TAG_MIN..=block_len).contains(&len)
}
