//! A level of bytes, and above it levels of marks.
ghost use Rattle.std.specs.Prelude.{◌≡◌, ◌+◌, ◌*◌, ◌^◌, ◌%◌, ◌<◌, ◌≤◌, ℕ, List, false, IfOk, IsTrue, length, get_or, replicate, slice_set};
ghost use Rattle.std.specs.Int.{bit_at};
ghost use Rattle.mark_levels.specs.Levels.{or_of, AreMarks, AreMarksBut, HasBit, IsEndBit, IsEndBitIn, IsLeastBit, LackBit};

use crate::bytes::Bytes;
use std::alloc::{AllocError, Global};
use std::marker::Model;

/// The most groups of sixteen bytes of a level.
pub const MOST_GROUPS: u32 = 1 << 24;

/// A level of bytes. Above it stands one with a mark for each sixteen of them, which has the bits that they have, and so on
/// up to a level of sixteen bytes.
#[cycle(level)]
#[derive(Drop)]
pub struct Level {
    bytes: Vec<u8>,
    // what the bytes have
    bits: u8,
    above: Above,
}

#[cycle(level)]
#[derive(Drop)]
enum Above {
    Top,
    Marks(Box<Level>),
}

/// One of the two ends of a level.
#[derive(Clone, Copy, Debug, PartialEq, Eq)]
pub enum End {
    Low,
    High,
}

impl Model for Level {
    ghost use Rattle.std.specs.Prelude.{ℕ, List, length};

    ghost Value = { List ℕ };

    ghost use Rattle.mark_levels.specs.Kept.{IsLevel};

    ghost view = { λ l. l.bytes.items };

    ghost invariant = { λ l. IsLevel l.bytes.items l.bits l.above };

    ghost size = { length };

    ghost use Rattle.mark_levels.specs.Falls.{falls};

    ghost size_decreases = { λ l h. falls _ _ h.below };
}

impl Level {
    /// A level of sixteen bytes 0 for each of 1 to 16,777,216 groups, or the want of memory.
    pub fn new(alloc: Global, groups: u32) -> Result<Level, AllocError>
        requires some { 0 < groups }
        requires few { groups ≤ MOST_GROUPS }
        ensures { IfOk result (λ level. level ≡ replicate (16 * groups) 0) }
    {
        let bytes = vec![in alloc; 0u8; 16 * groups as usize]?;
        let above = if groups == 1 {
            Above::Top
        } else {
            let marks = Level::new(alloc, (groups + 15) / 16)?;
            Above::Marks(Box::new(alloc, marks)?)
        };
        Ok(Level {
            bytes,
            bits: 0,
            above,
        })
    }

    /// The marks of sixteen bytes 0 for each of 1 to 16,777,216 groups, which stand apart, or the want of memory.
    pub fn marks(alloc: Global, groups: u32) -> Result<Level, AllocError>
        requires some { 0 < groups }
        requires few { groups ≤ MOST_GROUPS }
        ensures { IfOk result (λ level. AreMarks (replicate (16 * groups) 0) level) }
    {
        Level::new(alloc, (groups + 15) / 16)
    }

    /// The byte at a place, and 0 past the last one.
    pub fn get(&self, at: u32) -> u8
        ensures { result ≡ get_or self.now at 0 }
    {
        self.bytes.get(at as usize).copied().unwrap_or(0)
    }

    /// Writes the byte at a place, and the marks above it.
    pub fn set(&mut self, at: u32, byte: u8)
        requires { at < length self.old }
        ensures { self.new ≡ slice_set self.old at byte }
    {
        if self.bytes[at as usize] == byte {
            return;
        }
        self.bytes[at as usize] = byte;
        self.bits = match &mut self.above {
            Above::Top => union(&self.bytes, 0),
            Above::Marks(marks) => {
                marks.set(at / 16, union(&self.bytes, at / 16));
                marks.bits()
            }
        };
    }

    // The bits that the bytes have.
    fn bits(&self) -> u8
        ensures some { (k : ℕ) → bit_at result k ≡ 1 → HasBit self.now k }
        ensures none { (k : ℕ) → bit_at result k ≡ 0 → LackBit self.now k }
    {
        self.bits
    }

    /// The least bit from one to below another one, which is at most 8, that some byte has, or that none has any.
    /// Costs a step for each bit.
    pub fn least(&self, from: u8, below: u8) -> Option<u8>
        requires { below ≤ 8 }
        ensures { IsLeastBit self.now from below result }
    {
        let bits = self.bits();
        'asking: for bit in from..below {
            if has_bit(bits, bit) {
                return Some(bit);
            }
        }
        None
    }

    /// The byte nearest to an end that has a bit from 0 to 7, or that none has it. Costs at most sixteen steps for each level.
    pub fn nearest(&self, bit: u8, end: End) -> Option<u32>
        requires { bit < 8 }
        ensures { IsEndBit self.now bit end result }
    {
        match &self.above {
            Above::Top => scan(&self.bytes, bit, end, 0),
            Above::Marks(marks) => match marks.nearest(bit, end) {
                None => None,
                Some(group) => scan(&self.bytes, bit, end, 16 * group),
            },
        }
    }

    /// Writes the mark of a group of bytes that stand apart. Those of all other groups have to be right.
    pub fn mark(&mut self, bytes: &Bytes, group: u32)
        requires there { 16 * group + 16 ≤ length bytes.now }
        requires but { AreMarksBut group bytes.now self.old }
        ensures { AreMarks bytes.now self.new }
    {
        self.set(group, union(&bytes.bytes, group));
    }

    /// The least bit from one to below another one, which is at most 8, that some byte has of those of which these are the
    /// marks, or that none has any. Costs a step for each bit.
    pub fn least_below(&self, from: u8, below: u8) -> Option<u8>
        requires { below ≤ 8 }
        ensures { (bytes : List ℕ) → AreMarks bytes self.now → IsLeastBit bytes from below result }
    {
        self.least(from, below)
    }

    /// The byte nearest to an end that has a bit from 0 to 7, of bytes that stand apart, or that none has it. Costs at most
    /// sixteen steps for each level, and sixteen more.
    pub fn nearest_below(&self, bytes: &Bytes, bit: u8, end: End) -> Option<u32>
        requires low { bit < 8 }
        requires marks { AreMarks bytes.now self.now }
        requires whole { length bytes.now % 16 ≡ 0 }
        requires few { length bytes.now ≤ 2 ^ 28 }
        ensures { IsEndBit bytes.now bit end result }
    {
        match self.nearest(bit, end) {
            None => None,
            Some(group) => scan(&bytes.bytes, bit, end, 16 * group),
        }
    }
}

// Whether a byte has a bit.
fn has_bit(byte: u8, bit: u8) -> bool
    requires { bit < 8 }
    ensures some { IsTrue result → bit_at byte bit ≡ 1 }
    ensures none { result ≡ false → bit_at byte bit ≡ 0 }
{
    byte >> bit & 1 == 1
}

// The bits of the sixteen bytes of a group.
fn union(bytes: &[u8], group: u32) -> u8
    requires { 16 * group + 16 ≤ length bytes.now }
    ensures { result ≡ or_of bytes.now (16 * group) 16 }
{
    let first = 16 * group as usize;
    let mut bits = 0u8;
    'joining: for i in 0..16 {
        bits |= bytes[first + i];
    }
    bits
}

// The byte nearest to an end that has a bit, among the sixteen from one on.
#[inline(always)]
fn scan(bytes: &[u8], bit: u8, end: End, from: u32) -> Option<u32>
    requires low { bit < 8 }
    requires fits { (from + 16 ≤ length bytes.now) × (length bytes.now ≤ 2 ^ 28) }
    ensures { IsEndBitIn bytes.now bit end from result }
{
    match end {
        End::Low => {
            'rising: for at in from..from + 16 {
                if has_bit(bytes[at as usize], bit) {
                    return Some(at);
                }
            }
        }
        End::High => {
            'falling: for i in 1..17 {
                let at = from + 16 - i;
                if has_bit(bytes[at as usize], bit) {
                    return Some(at);
                }
            }
        }
    }
    None
}
