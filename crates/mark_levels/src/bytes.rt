//! Bytes whose marks stand apart.
ghost use Rattle.std.specs.Prelude.{◌≡◌, ◌*◌, ◌≤◌, ◌<◌, IfOk, length, get_or, replicate, slice_set};

use crate::levels::MOST_GROUPS;
use std::alloc::{AllocError, Global};
use std::marker::Model;

/// Bytes by number, sixteen for each group. Their marks stand apart, in a `Level` that is told of each group once it was
/// written.
#[derive(Drop)]
pub struct Bytes {
    pub(crate) bytes: Vec<u8>,
}

impl Model for Bytes {
    ghost use Rattle.std.specs.Prelude.{ℕ, List};

    ghost Value = { List ℕ };

    ghost view = { λ b. b.bytes.items };
}

impl Bytes {
    /// Sixteen bytes 0 for each of 1 to 16,777,216 groups, or the want of memory.
    pub fn new(alloc: Global, groups: u32) -> Result<Bytes, AllocError>
        requires some { 0 < groups }
        requires few { groups ≤ MOST_GROUPS }
        ensures { IfOk result (λ bytes. bytes ≡ replicate (16 * groups) 0) }
    {
        let bytes = vec![in alloc; 0u8; 16 * groups as usize]?;
        Ok(Bytes { bytes })
    }

    /// The byte at a place, and 0 past the last one.
    #[inline]
    pub fn get(&self, at: u32) -> u8
        ensures { result ≡ get_or self.now at 0 }
    {
        self.bytes.get(at as usize).copied().unwrap_or(0)
    }

    /// Writes the byte at a place.
    #[inline]
    pub fn set(&mut self, at: u32, byte: u8)
        requires { at < length self.old }
        ensures { self.new ≡ slice_set self.old at byte }
    {
        self.bytes[at as usize] = byte;
    }
}
