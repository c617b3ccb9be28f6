ghost use Rattle.std.specs.Prelude.{◌≡◌, ◌^◌, ◌%◌, ◌<◌};
ghost use Rattle.unit_map.specs.Pieces.{AreTwoHalves};

/// A block of memory: 2^order units of 256 bytes from `unit` on, a multiple of its size.
#[derive(Clone, Copy, Debug, PartialEq, Eq)]
pub struct Block {
    pub unit: u32,
    pub order: u8,
}

impl Block {
    /// The other half of the block of twice the size that this one, of an order from 0 to 3, is a half of: its buddy.
    pub fn buddy(self) -> Block
        requires low { self.order < 4 }
        requires aligned { self.unit % 2 ^ self.order ≡ 0 }
        ensures order { result.order ≡ self.order }
        ensures beside { AreTwoHalves self.unit result.unit self.order }
    {
        let size = 1u32 << self.order;
        let unit = if self.unit % (2 * size) == 0 {
            self.unit + size
        } else {
            self.unit - size
        };
        Block {
            unit,
            order: self.order,
        }
    }
}
