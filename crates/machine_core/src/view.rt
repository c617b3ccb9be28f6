//! The memory of one space, as an instruction sees it.

ghost use Rattle.std.specs.Prelude.{◌≡◌, ◌+◌, ◌%◌, ◌<◌, ◌≤◌, IsSome, IsTrue, Some, Ok, Err, length, true, false};
ghost use Rattle.sizes.specs.declared.TheConstants.{LINE_BYTES};
ghost use Rattle.rv_execute.specs.Calls.{is_count, load_at};
ghost use Rattle.machine_core.specs.Access.{IsReadyView, IsStoredBy, IsUnchanged, LoadsLent, StoresLent, failed_at, lists_lent, refusal_of, spaces_lent};
ghost use Rattle.machine_core.specs.Ahead.{ahead};

use crate::hand::{Hand, page_of};
use bitflags::Flags;
use byteorder::{ByteOrder, LittleEndian};
use overlay_memory::{MemoryError, OverlayMemory};
use ovl_io::Perms;
use rv_execute::{Denied, GuestMemory, Refused};
use sizes::LINE_BYTES;

/// The most bytes of an access.
const MOST_BYTES: usize = 8;

/// Whether an access of 1, 2, 4 or 8 bytes is aligned, as most are, and so in one line.
#[inline(always)]
fn is_aligned(address: u64, count: usize) -> bool
    requires { IsTrue (is_count count) }
    ensures { result ≡ true → (0 < count) × (address % LINE_BYTES + count ≤ LINE_BYTES) }
{
    address % count as u64 == 0
}

/// The memory of all spaces, the number of one that is there, and the lines of it that are in hand.
#[derive(Drop)]
pub(crate) struct View<'a> {
    pub(crate) memory: &'a mut OverlayMemory,
    pub(crate) space: u16,
    pub(crate) hand: Hand,
}

/// Where bytes may not be used.
#[inline]
pub(crate) fn denied(error: MemoryError) -> Denied
    requires { IsSome (failed_at error) }
    ensures { failed_at error ≡ Some result.address }
{
    match error {
        MemoryError::Unmapped(address) => Denied { address },
        MemoryError::Forbidden(address) => Denied { address },
        MemoryError::Full(_, _) => unreachable!(),
    }
}

/// Why bytes aren't stored.
#[inline]
fn refused(error: MemoryError) -> Refused
    ensures { result ≡ refusal_of error }
{
    match error {
        MemoryError::Unmapped(address) => Refused::At(address),
        MemoryError::Forbidden(address) => Refused::At(address),
        MemoryError::Full(needed, limit) => Refused::Full(needed, limit),
    }
}

impl<'a> View<'a> {
    /// Counts the fetches that are still to be counted.
    pub(crate) fn pay(&mut self)
        ensures loan { self.new.memory.ghost_name ≡ self.old.memory.ghost_name }
        ensures space { self.new.space ≡ self.old.space }
        ensures spaces { spaces_lent self.new ≡ spaces_lent self.old }
        ensures lists { lists_lent self.new ≡ ahead self.old.hand.owed (lists_lent self.old) }
    {
        if self.hand.owed > 0 {
            self.memory.count_fronts(u64::from(self.hand.owed));
        }
    }

    /// As `load`, of bytes that aren't aligned, or whose page isn't known to be at the front of its list. Answers whether they may be read, and
    /// writes down the first one that mayn't.
    #[cold]
    #[inline(never)]
    fn load_apart(&mut self, address: u64, into: &mut [u8], at: &mut u64) -> bool
        requires count { IsTrue (is_count (length into.old)) }
        requires ready { IsReadyView self.old }
        ensures ready { IsReadyView self.new }
        ensures kept { length into.new ≡ length into.old }
        ensures loaded { result ≡ true
            → LoadsLent self.old address (length into.old) into.new (Ok tt) }
        ensures denied { result ≡ false
            → LoadsLent self.old address (length into.old) into.new (Err (record { address = at.new })) }
        ensures made { IsUnchanged (load_at address (length into.old)) self.old self.new }
    {
        self.hand.part(address);
        match self.memory.load(self.space, address, into, Perms::R) {
            Ok(()) => true,
            Err(error) => {
                *at = denied(error).address;
                false
            }
        }
    }

    /// As `load`, by way of a buffer of its own, so that that of the instruction stays in registers.
    #[inline(always)]
    fn load_buffered(&mut self, address: u64, into: &mut [u8]) -> Result<(), Denied>
        requires count { IsTrue (is_count (length into.old)) }
        requires ready { IsReadyView self.old }
        ensures ready { IsReadyView self.new }
        ensures answer { LoadsLent self.old address (length into.old) into.new result }
        ensures made { IsUnchanged (load_at address (length into.old)) self.old self.new }
    {
        let mut buffer = [0; MOST_BYTES];
        let mut at = 0;
        let count = into.len();
        if self.load_apart(address, &mut buffer[..count], &mut at) {
            into.copy_from_slice(&buffer[..count]);
            return Ok(());
        }
        Err(Denied { address: at })
    }

    /// As `store`, of bytes that aren't aligned, or aren't put where they stand in a page known to be at the front. Answers whether they were stored,
    /// and writes down why not.
    #[cold]
    #[inline(never)]
    fn store_apart(&mut self, address: u64, bytes: &[u8], why: &mut Refused) -> bool
        requires count { IsTrue (is_count (length bytes.now)) }
        requires ready { IsReadyView self.old }
        ensures ready { IsReadyView self.new }
        ensures stored { result ≡ true → StoresLent self.old address bytes.now (Ok tt) self.new }
        ensures refused { result ≡ false → StoresLent self.old address bytes.now (Err why.new) self.new }
        ensures made { result ≡ true → IsStoredBy self.old address bytes.now (Ok tt) self.new }
        ensures unmade { result ≡ false → IsStoredBy self.old address bytes.now (Err why.new) self.new }
    {
        self.hand.part(address);
        match self.memory.store(self.space, address, bytes) {
            Ok(()) => {
                let _ = self.memory.units();
                true
            }
            Err(error) => {
                *why = refused(error);
                false
            }
        }
    }

    /// As `store`, by way of a buffer of its own, so that that of the instruction stays in registers.
    #[inline(always)]
    fn store_buffered(&mut self, address: u64, bytes: &[u8]) -> Result<(), Refused>
        requires count { IsTrue (is_count (length bytes.now)) }
        requires ready { IsReadyView self.old }
        ensures ready { IsReadyView self.new }
        ensures answer { StoresLent self.old address bytes.now result self.new }
        ensures made { IsStoredBy self.old address bytes.now result self.new }
    {
        let mut buffer = [0; MOST_BYTES];
        let count = bytes.len();
        buffer[..count].copy_from_slice(bytes);
        let mut why = Refused::At(0);
        if self.store_apart(address, &buffer[..count], &mut why) {
            return Ok(());
        }
        Err(why)
    }
}

impl<'a> GuestMemory for View<'a> {
    ghost use Rattle.overlay_pages.specs.State.{memory_of};
    ghost use Rattle.rv_execute.specs.Calls.{fetch_at, load_at};
    ghost use Rattle.machine_core.specs.Access.{IsReadyView, IsStoredBy, IsUnchanged, spaces_lent};

    ghost memory = { λ v. memory_of (spaces_lent v) v.space };

    ghost ready = { λ v. IsReadyView v };

    ghost fetched = { λ old address new. IsUnchanged (fetch_at address) old new };

    ghost loaded = { λ old address count new. IsUnchanged (load_at address count) old new };

    ghost stored = { λ old address bytes answer new. IsStoredBy old address bytes answer new };

    #[cold]
    #[inline(never)]
    fn fetch(&mut self, address: u64) -> Result<u32, Denied> {
        let mut word = [0; 4];
        self.hand.lose();
        match self.memory.load(self.space, address, &mut word, Perms::X) {
            Ok(()) => Ok(LittleEndian::read_u32(&word)),
            Err(error) => Err(denied(error)),
        }
    }

    // A line of a page at the front of its list is read where it stands: nothing moves, and the lines stay in hand. What isn't aligned
    // goes the long way.
    #[inline(always)]
    fn load(&mut self, address: u64, into: &mut [u8]) -> Result<(), Denied> {
        if is_aligned(address, into.len()) && self.memory.load_front(self.space, address, into) {
            return Ok(());
        }
        self.load_buffered(address, into)
    }

    // After a store the units are asked for what their contract says alone: that there are enough.
    #[inline(always)]
    fn store(&mut self, address: u64, bytes: &[u8]) -> Result<(), Refused> {
        if is_aligned(address, bytes.len()) && self.memory.store_front(self.space, address, bytes) {
            self.hand.lose_page(page_of(address));
            let _ = self.memory.units();
            return Ok(());
        }
        self.store_buffered(address, bytes)
    }
}
