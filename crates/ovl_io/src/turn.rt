ghost use Rattle.std.specs.Prelude.{◌≡◌, List, ℕ};

use crate::FaultKind;
use arrayvec::ArrayVec;
use sizes::MOST_WRITTEN;
use std::marker::Model;

/// What a process wrote in one turn: to which port (1 is its output, 2 its errors), and up to `MOST_WRITTEN` bytes.
#[derive(Debug, Drop)]
pub struct Written {
    pub port: u8,
    pub bytes: ArrayVec<u8, MOST_WRITTEN>,
}

impl Model for Written {
    ghost Value = { ℕ × List ℕ };

    ghost view = { λ w. (w.port, w.bytes.items) };
}

/// What one instruction of a process came to.
#[derive(Debug, Drop)]
pub enum Turn {
    /// It was done, and the process runs on.
    Stepped,
    /// It was done and wrote these bytes.
    Wrote(Written),
    /// The process exited with this code.
    Exited(u8),
    /// The instruction couldn't be done, and the process has ended: the kind, and the address at fault.
    Faulted(FaultKind, u64),
    /// The instruction would need more units than there are; nothing changed: the units that it would
    /// come to, and the limit.
    Full(u32, u32),
}
