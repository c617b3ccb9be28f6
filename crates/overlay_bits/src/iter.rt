use crate::bits::Bits;
use std::marker::Model;

/// The members of a set that are still to come, ascending.
#[derive(Clone, Debug, Drop)]
pub struct BitsIter {
    pub(crate) rest: Bits,
}

impl Model for BitsIter {
    ghost use Rattle.std.specs.Prelude.{ℕ, List};

    ghost Value = { List ℕ };

    ghost view = { λ it. it.rest };
}

impl Iterator for BitsIter {
    ghost use Rattle.std.specs.Prelude.{ℕ, List};
    ghost use Rattle.std.specs.Iterator.{YieldsFirst, item_count};

    type Item = u8;

    ghost next_gives = { YieldsFirst (λ lines. lines) };

    ghost remaining = { item_count (λ lines. lines) };

    fn next(&mut self) -> Option<u8> {
        match self.rest.first() {
            None => None,
            Some(line) => {
                self.rest = self.rest.without(line);
                Some(line)
            }
        }
    }
}
