// The length of a string that comes in pieces, and never grows past its limit.
ghost use Rattle.std.specs.Prelude.{◌≡◌, ℕ, ◌≤◌, unwrap_or};
ghost use Rattle.key.specs.Lengths.{grown_to};

use std::marker::Model;

#[derive(Drop)]
pub struct Length<const MAX: usize> {
    count: usize,
}

// Clauses see the count.
impl<const MAX: usize> Model for Length<MAX> {
    ghost Value = { ℕ };

    ghost view = { λ length. length.count };

    ghost invariant = { λ length. length.count ≤ MAX };
}

impl<const MAX: usize> Length<MAX> {
    // The length of a string of which no piece has come.
    pub fn zero() -> Length<MAX>
        ensures { result ≡ 0 }
    {
        Length { count: 0 }
    }

    // Grows by a piece and answers the length so far, if that is within the limit; else it stays as it is.
    pub fn grow(&mut self, piece: usize) -> Option<usize>
        ensures answer { result ≡ grown_to self.old piece MAX }
        ensures after { self.new ≡ unwrap_or result self.old }
        ensures within { self.new ≤ MAX }
    {
        self.count = grown(self.count, piece, MAX)?;
        Some(self.count)
    }
}

// The length so far with a piece more, if it is within the limit.
pub fn grown(so_far: usize, piece: usize, limit: usize) -> Option<usize>
    ensures { result ≡ grown_to so_far piece limit }
{
    so_far.checked_add(piece).filter(|length| *length <= limit)
}
