//! What is kept of a page.

use overlay_bits::Bits;
use ovl_io::Perms;

/// What an entry holds of its page: the permissions, the frame and the own lines.
#[derive(Clone, Copy, Debug, PartialEq, Eq)]
pub struct Cached {
    pub perms: Perms,
    pub frame: u32,
    pub bits: Bits,
}
