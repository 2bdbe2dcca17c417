//! The places of the bits that are set.

ghost use Rattle.std.specs.Prelude.{◌≡◌};
ghost use Rattle.std.specs.Iterator.{YieldsFirst, item_count};
ghost use Rattle.bit_rows.specs.Rows.{places};

/// The places of the bits of a word that are set, in ascending order.
#[derive(Clone, Copy)]
pub struct Ones {
    pub(crate) rest: u64,
}

impl Ones {
    /// Those of this word.
    pub fn of(word: u64) -> Ones
        ensures { result.rest ≡ word }
    {
        Ones { rest: word }
    }
}

impl Iterator for Ones {
    type Item = u32;

    ghost next_gives = { YieldsFirst (λ s. places s.rest) };

    ghost remaining = { item_count (λ s. places s.rest) };

    fn next(&mut self) -> Option<u32> {
        if self.rest == 0 {
            return None;
        }
        let place = self.rest.trailing_zeros();
        self.rest &= !(1 << place);
        Some(place)
    }
}
