use overlay_address::OverlayPage;
use overlay_bits::Bits;

/// A segment, as the store keeps it beside the lines: the lines of an overlay, in a block of 2^order units.
#[derive(Clone, Copy, Debug, PartialEq, Eq)]
pub struct Segment {
    /// whose lines they are
    pub owner: OverlayPage,
    /// 0 to 4
    pub order: u8,
    /// which lines there are
    pub bits: Bits,
}
