//! What came of an instruction.

use ovl_io::FaultKind;

/// What came of an instruction (RISC-V Unprivileged ISA, "Exceptions, Traps, and Interrupts").
#[derive(Clone, Copy, Debug, PartialEq, Eq)]
pub enum Outcome {
    /// It is done; registers, pc and memory are those behind it.
    Stepped,
    /// It is ECALL, and pc is behind it.
    Asked,
    /// It can't be done, and nothing has changed: the kind, and the address at fault.
    Fault(FaultKind, u64),
    /// Its store was refused for want of units, and nothing has changed: the units that it would come to, and the limit.
    Full(u32, u32),
}
