//! The lines that instructions are taken from, decoded.

ghost use Rattle.std.specs.Prelude.{◌≡◌, ◌*◌, ◌/◌, ◌%◌, ◌<◌, [], true};
ghost use Rattle.sizes.specs.declared.TheConstants.{LINE_BYTES, PAGE_BYTES, PAGE_LINES};
ghost use Rattle.machine_core.specs.Held.{HasLine, IsInHand, IsReached, IsTurned};
ghost use Rattle.machine_core.specs.InHand.{is_apart, lost, parted, without_page};

use decoded_lines::DecodedLines;
use overlay_bits::Bits;
use overlay_memory::OverlayMemory;
use ovl_io::Perms;
use rv_decode::Decoder;
use sizes::{LINE_BYTES, PAGE_BYTES, PAGE_LINES};
use translation_cache::SETS;

/// Lines of a page: where it starts, and those of its lines that stand decoded. A fetch from one of them is a hit that moves nothing; how many
/// of these are still to be counted is kept here.
#[derive(Clone, Copy, Debug)]
pub(crate) struct Hand {
    pub(crate) start: u64,
    pub(crate) known: Bits,
    pub(crate) owed: u32,
}

/// The page of an address.
#[inline(always)]
pub(crate) fn page_of(address: u64) -> u64
    ensures { result ≡ address / PAGE_BYTES }
{
    address / PAGE_BYTES as u64
}

/// The start of the page of an address.
#[inline(always)]
fn start_of(address: u64) -> u64
    ensures { result ≡ PAGE_BYTES * (address / PAGE_BYTES) }
{
    address - address % PAGE_BYTES as u64
}

/// The number of the line of its page that an address lies in.
#[inline(always)]
fn line_of(address: u64) -> u8
    ensures line { result ≡ address / LINE_BYTES % PAGE_LINES }
    ensures low { result < PAGE_LINES }
{
    (address / LINE_BYTES as u64 % PAGE_LINES as u64) as u8
}

/// Whether an access of at most 8 bytes lies in one page, of another list of translations than that of a page.
#[inline]
fn is_apart(address: u64, page: u64) -> bool
    ensures { result ≡ is_apart address page }
{
    page_of(address) % SETS as u64 != page % SETS as u64
        && address % PAGE_BYTES as u64 <= PAGE_BYTES as u64 - 8
}

impl Hand {
    /// No line.
    pub(crate) fn none() -> Hand
        ensures { result ≡ record { start = 0; known = []; owed = 0 } }
    {
        Hand {
            start: 0,
            known: Bits::empty(),
            owed: 0,
        }
    }

    /// Has no line any more.
    #[inline]
    pub(crate) fn lose(&mut self)
        ensures { self.new ≡ lost self.old }
    {
        self.known = Bits::empty();
    }

    /// Has no line any more behind an access that may change one of them, or move their page from the front of its list.
    #[inline]
    pub(crate) fn part(&mut self, address: u64)
        ensures { self.new ≡ parted address self.old }
    {
        if !is_apart(address, page_of(self.start)) {
            self.lose();
        }
    }

    /// Has no line of a page any more.
    #[inline(always)]
    pub(crate) fn lose_page(&mut self, page: u64)
        ensures { self.new ≡ without_page page self.old }
    {
        if page == page_of(self.start) {
            self.lose();
        }
    }

    /// The lines of the page that starts there, none so far, where it was another page.
    #[inline]
    fn turn_to(&mut self, start: u64)
        ensures { IsTurned start self.old self.new }
    {
        if self.start != start {
            self.start = start;
            self.lose();
        }
    }

    /// Takes the line of the instruction at pc, where its page may be executed and is known to be at the front of its list. Answers
    /// whether it did.
    #[inline(always)]
    pub(crate) fn take<D: Decoder>(
        &mut self,
        memory: &OverlayMemory,
        space: u16,
        lines: &mut DecodedLines<D>,
        pc: u64,
    ) -> bool
        requires hand { IsInHand lines.old memory.now space self.old }
        ensures taken { result ≡ true → IsReached lines.new memory.now space self.new pc }
        ensures owed { self.new.owed ≡ self.old.owed }
    {
        if pc % 4 != 0 {
            return false;
        }
        match memory.front_line(space, pc, Perms::X) {
            Some(line) => {
                lines.enter(pc / LINE_BYTES as u64, line);
                self.turn_to(start_of(pc));
                self.known = self.known.with(line_of(pc));
                true
            }
            None => false,
        }
    }

    /// Whether the line of the instruction at pc is in hand. One compare tells the page and whether pc is aligned.
    #[inline(always)]
    pub(crate) fn has_line(&self, pc: u64) -> bool
        ensures { result ≡ true → HasLine self.now pc }
    {
        start_of(pc) + pc % 4 == self.start && self.known.has(line_of(pc))
    }
}
