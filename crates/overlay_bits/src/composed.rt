ghost use Rattle.std.specs.Prelude.{◌≡◌};
ghost use Rattle.overlay_bits.specs.Composed.{composed};

use crate::bits::Bits;

/// Composes a page: each line that is a member of the set is that of `over`, and any other one that of `frame`.
/// Copies each line once.
pub fn compose(frame: &[[u8; 64]; 64], over: &[[u8; 64]; 64], bits: Bits, out: &mut [[u8; 64]; 64])
    ensures { out.new ≡ composed frame.now over.now bits }
{
    'composing: for line in 0..64u8 {
        let at = line as usize;
        out[at] = if bits.has(line) { over[at] } else { frame[at] };
    }
}
