//! A set of addresses.

ghost use Rattle.std.specs.Prelude.{◌≡◌, ℕ, ◌+◌, ◌*◌, ◌<◌, ◌≤◌, [], true, false, replicate, slice_set, slice_index_or, IsOk, OnOk, OnErr};
ghost use Rattle.std.specs.FinSet as set;
ghost use Rattle.overlay_bits.specs.Lines.{AreLines, with_line};
ghost use Rattle.breakpoints.specs.Marks.{piece_marks, piece_of, word_place};
ghost use Rattle.breakpoints.specs.declared.TheConstants.{MARKED_PIECES, PIECE_WORDS};

use crate::{MARKED_PIECES, PIECE_BYTES, PIECE_WORDS};
use indexmap::IndexSet;
use overlay_bits::Bits;
use std::alloc::{AllocError, Global};
use std::marker::Model;

/// Addresses, of which none stands twice. One is found without a search.
#[derive(Drop)]
pub struct Addresses {
    found: IndexSet<u64>,
    // of each piece of memory the words in which an address lies, and maybe others
    marks: [Bits; MARKED_PIECES],
}

impl Model for Addresses {
    ghost use Rattle.std.specs.Coded.{coded_ℕ};
    ghost use Rattle.std.specs.Ordering.{nat_cmp};
    ghost use Rattle.std.specs.FinSet.{FinSet, code, from_list};

    ghost Value = { FinSet nat_cmp };

    ghost coded = { code coded_ℕ };

    ghost use Rattle.breakpoints.specs.Marks.{AreMarked};

    ghost view = { λ a. from_list a.found.keys };

    ghost invariant = { λ a. AreMarked a.found.keys a.marks };
}

/// The mark of a piece.
#[inline]
fn piece_marks(marks: &[Bits; MARKED_PIECES], address: u64) -> Bits
    ensures mark { result ≡ piece_marks marks.now address }
{
    marks[(address / PIECE_BYTES % MARKED_PIECES as u64) as usize]
}

/// The number of a word in its piece.
#[inline]
fn word_place(address: u64) -> u8
    ensures word { result ≡ word_place address }
    ensures low { result < PIECE_WORDS }
{
    (address / 4 % PIECE_WORDS) as u8
}

/// Marks the word of an address.
fn mark(marks: &mut [Bits; MARKED_PIECES], address: u64)
    ensures { marks.new ≡ slice_set marks.old (piece_of address)
        (with_line (piece_marks marks.old address) (word_place address)) }
{
    marks[(address / PIECE_BYTES % MARKED_PIECES as u64) as usize] = piece_marks(
        marks, address,
    ).with(word_place(address));
}

/// Takes away all marks.
fn unmark(marks: &mut [Bits; MARKED_PIECES])
    ensures { marks.new ≡ replicate MARKED_PIECES [] }
{
    let none = [Bits::empty(); MARKED_PIECES];
    *marks = none;
}

impl Addresses {
    /// No address. Takes no memory.
    pub fn new(alloc: Global) -> Addresses
        ensures { result ≡ set.empty }
    {
        Addresses {
            found: IndexSet::new(alloc),
            marks: [Bits::empty(); MARKED_PIECES],
        }
    }

    /// Whether an address may be there: false only where it isn't. Costs a few steps.
    #[inline]
    pub fn may_have(&self, address: u64) -> bool
        ensures { result ≡ false → set.contains self.now address ≡ false }
    {
        let _found = &self.found;
        piece_marks(&self.marks, address).has(word_place(address))
    }

    /// Whether an address is there. Costs a few steps where no other one lies in its word of four bytes.
    #[inline]
    pub fn has(&self, address: u64) -> bool
        ensures { result ≡ set.contains self.now address }
    {
        self.may_have(address) && self.found.contains(&address)
    }

    /// How many words there are from that of an address on, at most so many, all in its 256 bytes, before one behind the first in which
    /// an address may lie. It may tell fewer than there are, since marks may be those of other pieces, and no caller needs the most.
    /// Costs a few steps.
    #[inline]
    pub fn words_past(&self, address: u64, most: u32) -> u32
        requires some { 0 < most }
        requires inside { word_place address + most ≤ PIECE_WORDS }
        ensures some { 0 < result }
        ensures few { result ≤ most }
        ensures past { (k : ℕ) → 0 < k → k < result → set.contains self.now (address + 4 * k) ≡ false }
    {
        let _found = &self.found;
        let word = word_place(address);
        match piece_marks(&self.marks, address).least_from(word + 1) {
            Some(next) => most.min(u32::from(next - word)),
            None => most,
        }
    }

    /// Adds an address. One that is there stays, and takes no memory. After want of memory everything is as before.
    pub fn add(&mut self, address: u64) -> Result<(), AllocError>
        ensures added { OnOk result (self.new ≡ set.insert self.old address) }
        ensures kept { OnErr result (self.new ≡ self.old) }
        ensures there { set.contains self.old address ≡ true → IsOk result }
    {
        match self.found.insert(address) {
            Ok(_) => {
                mark(&mut self.marks, address);
                Ok(())
            }
            Err(_) => Err(AllocError),
        }
    }

    /// Takes away an address, where it is there. Takes no memory.
    pub fn remove(&mut self, address: u64)
        ensures { self.new ≡ set.remove self.old address }
    {
        self.found.swap_remove(&address);
        if self.found.is_empty() {
            unmark(&mut self.marks);
        }
    }
}
