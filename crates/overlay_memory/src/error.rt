ghost use Rattle.std.specs.Prelude.{◌≡◌};
ghost use Rattle.overlay_memory.specs.Pieces.{came_of, result_at};

/// Why bytes aren't read or written.
#[derive(Clone, Copy, Debug, PartialEq, Eq)]
pub enum MemoryError {
    /// the page of the byte at this address isn't there; it is the first byte that fails
    Unmapped(u64),
    /// the page of the byte at this address is there and lacks the permission; it is the first byte that fails
    Forbidden(u64),
    /// the units that would be needed exceed the limit, which is the second number
    Full(u32, u32),
}

/// What came of an access to bytes that all lie in one line, where a byte that fails is the first one: small enough to be
/// answered in registers.
#[derive(Clone, Copy, Debug, PartialEq, Eq)]
pub(crate) enum Came {
    /// it is done
    Done,
    /// the page isn't there
    Unmapped,
    /// the page is there and lacks the permission
    Forbidden,
    /// the units that would be needed exceed the limit, which is the second number
    Full(u32, u32),
}

/// The result of an access to bytes from an address on, of which that came.
#[inline(always)]
pub(crate) fn result_at(address: u64, came: Came) -> Result<(), MemoryError>
    ensures { result ≡ result_at address came }
{
    match came {
        Came::Done => Ok(()),
        Came::Unmapped => Err(MemoryError::Unmapped(address)),
        Came::Forbidden => Err(MemoryError::Forbidden(address)),
        Came::Full(needed, limit) => Err(MemoryError::Full(needed, limit)),
    }
}

/// What came of an access with a result.
pub(crate) fn came_of(given: Result<(), MemoryError>) -> Came
    ensures { result ≡ came_of given }
{
    match given {
        Ok(()) => Came::Done,
        Err(MemoryError::Unmapped(_)) => Came::Unmapped,
        Err(MemoryError::Forbidden(_)) => Came::Forbidden,
        Err(MemoryError::Full(needed, limit)) => Came::Full(needed, limit),
    }
}

/// The units that would be needed, and the limit, which is less.
#[derive(Clone, Copy, Debug, PartialEq, Eq)]
pub struct Shortage {
    pub needed: u32,
    pub limit: u32,
}

/// Why a page isn't placed.
#[derive(Clone, Copy, Debug, PartialEq, Eq)]
pub enum SpaceError {
    /// the units that would be needed exceed the limit, which is the second number
    Full(u32, u32),
    /// want of memory
    Memory,
}
