//! What an instruction asks of a memory.

ghost use Rattle.std.specs.Prelude.{◌≡◌, ℕ, ◌%◌, List, Result, IsTrue, length};
ghost use Rattle.ovl_io.specs.Memory.{Memory};
ghost use Rattle.rv_execute.specs.declared.memory.Refused.{Refused};
ghost use Rattle.rv_execute.specs.Calls.{Fetches, is_count, LoadsBytes, StoresBytes};

/// An access that failed.
#[derive(Clone, Copy, Debug, PartialEq, Eq)]
pub struct Denied {
    /// The first of its addresses whose page isn't there or lacks the permission.
    pub address: u64,
}

/// Why a store wasn't done.
#[derive(Clone, Copy, Debug, PartialEq, Eq)]
pub enum Refused {
    /// The first of its addresses whose page isn't there or may not be written.
    At(u64),
    /// It would need more units than there are: the units that it would come to, and the limit.
    Full(u32, u32),
}

/// The memory of a running program, as an instruction sees it (RISC-V Unprivileged ISA, "Memory"): bytes by address, in
/// pages with permissions. Multi-byte numbers are little-endian, and accesses need not be aligned. Each call
/// may change what the object counts; only a store that is done changes the memory.
pub trait GuestMemory {
    /// The memory that accesses see.
    ghost memory: { Self → Memory };

    /// What has to hold of the object before each of its calls, and holds after it.
    ghost ready: { Self → Type 0 };

    /// What a fetch at an address makes of the object.
    ghost fetched: { Self → ℕ → Self → Type 0 };

    /// What a load of so many bytes from an address on makes of the object.
    ghost loaded: { Self → ℕ → ℕ → Self → Type 0 };

    /// What a store of bytes from an address on makes of the object, by its answer.
    ghost stored: { Self → ℕ → List ℕ → Result (Unit {0}) Refused → Self → Type 0 };

    /// The word at an address that is a multiple of 4, little-endian. Denied where its page isn't there or may not be
    /// executed.
    fn fetch(&mut self, address: u64) -> Result<u32, Denied>
        requires aligned { address % 4 ≡ 0 }
        requires ready { ready self.old }
        ensures ready { ready self.new }
        ensures answer { Fetches (memory self.old) address result }
        ensures kept { memory self.new ≡ memory self.old }
        ensures made { fetched self.old address self.new };

    /// Fills `into`, of 1, 2, 4 or 8 bytes, with the bytes from an address on. Denied where one of them lies in a page
    /// that isn't there or may not be read; nothing is said of `into` then.
    fn load(&mut self, address: u64, into: &mut [u8]) -> Result<(), Denied>
        requires count { IsTrue (is_count (length into.old)) }
        requires ready { ready self.old }
        ensures ready { ready self.new }
        ensures answer { LoadsBytes (memory self.old) address (length into.old) into.new result }
        ensures kept { memory self.new ≡ memory self.old }
        ensures made { loaded self.old address (length into.old) self.new };

    /// Makes `bytes`, of which there are 1, 2, 4 or 8, the bytes from an address on. Refused as a whole, with nothing
    /// changed, where one of them lies in a page that isn't there or may not be written, or for want of units.
    fn store(&mut self, address: u64, bytes: &[u8]) -> Result<(), Refused>
        requires count { IsTrue (is_count (length bytes.now)) }
        requires ready { ready self.old }
        ensures ready { ready self.new }
        ensures answer { StoresBytes (memory self.old) address bytes.now result (memory self.new) }
        ensures made { stored self.old address bytes.now result self.new };
}
