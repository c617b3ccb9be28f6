ghost use Rattle.std.specs.Prelude.{◌≡◌, ◌≤◌, ℕ, List, length};
ghost use Rattle.sizes.specs.declared.TheConstants.{MOST_WRITTEN};
ghost use Rattle.machine_core.specs.Ample.{is_full_turn};
ghost use Rattle.machine_core.specs.BareTurns.{turn_with};

use arrayvec::ArrayVec;
use ovl_io::{FaultKind, Turn, Written};

/// What one instruction of a process came to, without the bytes that it wrote, which stand apart. A `Turn` has room for all
/// that a process may write, so it is dear to move.
#[derive(Clone, Copy, Debug)]
pub enum BareTurn {
    /// It was done, and the process runs on.
    Stepped,
    /// It was done and wrote bytes to this port.
    Wrote(u8),
    /// The process exited with this code.
    Exited(u8),
    /// The instruction couldn't be done, and the process has ended: the kind, and the address at fault.
    Faulted(FaultKind, u64),
    /// The instruction would need more units than there are; nothing changed: the units that it would
    /// come to, and the limit.
    Full(u32, u32),
}

impl BareTurn {
    /// The turn, with the bytes that it wrote, where it did.
    #[inline(never)]
    pub fn turn(self, bytes: &[u8]) -> Turn
        requires few { length bytes.now ≤ MOST_WRITTEN }
        ensures { result ≡ turn_with self bytes.now }
    {
        match self {
            BareTurn::Stepped => Turn::Stepped,
            BareTurn::Wrote(port) => Turn::Wrote(written(port, bytes)),
            BareTurn::Exited(code) => Turn::Exited(code),
            BareTurn::Faulted(kind, address) => Turn::Faulted(kind, address),
            BareTurn::Full(units, limit) => Turn::Full(units, limit),
        }
    }

    /// Whether there weren't units enough.
    #[inline]
    pub fn is_full(self) -> bool
        ensures { (bytes : List ℕ) → is_full_turn (turn_with self bytes) ≡ result }
    {
        match self {
            BareTurn::Full(_, _) => true,
            BareTurn::Stepped
            | BareTurn::Wrote(_)
            | BareTurn::Exited(_)
            | BareTurn::Faulted(_, _) => false,
        }
    }
}

/// The line of bytes that a process writes to a port.
fn written(port: u8, bytes: &[u8]) -> Written
    requires { length bytes.now ≤ MOST_WRITTEN }
    ensures { result ≡ (port, bytes.now) }
{
    let mut kept = ArrayVec::new();
    let _ = kept.try_extend_from_slice(bytes);
    Written { port, bytes: kept }
}
