ghost use Rattle.std.specs.Prelude.{⊤, [], ◌∷◌, codes};

use bitflags::{Flag, Flags, bitflag_items};

/// What may be done with a page: a bit each to read (4), to write (2) and to execute (1), as the flags
/// of an ELF-64 program header have them.
#[derive(Clone, Copy, Debug, PartialEq, Eq)]
pub struct Perms(u8);

bitflag_items! {
    impl Perms: u8 {
        const R = 4;
        const W = 2;
        const X = 1;
    }
}

impl Flags for Perms {
    type Bits = u8;

    ghost exact = { ⊤ };

    ghost table = { (codes "R", 4) ∷ (codes "W", 2) ∷ (codes "X", 1) ∷ [] };

    ghost set_of = { λ p. p.0 };

    fn flags<'a>() -> &'a [Flag<Perms>] {
        Perms::FLAGS
    }

    fn bits(&self) -> u8 {
        self.0
    }

    fn from_bits_retain(bits: u8) -> Perms {
        Perms(bits)
    }
}
