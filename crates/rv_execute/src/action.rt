//! What an instruction does once its operands are known, as a value.

/// How many bytes a load or a store has.
#[derive(Clone, Copy, Debug, PartialEq, Eq)]
pub enum Size {
    /// One byte.
    Byte,
    /// Two bytes.
    Half,
    /// Four bytes.
    Word,
    /// Eight bytes.
    Double,
}

/// What the bits above a loaded value become.
#[derive(Clone, Copy, Debug, PartialEq, Eq)]
pub enum Extension {
    /// Zeros.
    Zero,
    /// Copies of the value's highest bit.
    Sign,
}

/// What an instruction does, by its operands. Values and addresses are of 64 bits; `rd` is the instruction's own.
#[derive(Clone, Copy, Debug, PartialEq, Eq)]
pub enum Action {
    /// rd gets this value.
    Write(u64),
    /// rd gets the address behind the instruction, and pc goes to this target.
    Link(u64),
    /// pc goes to this target.
    Goto(u64),
    /// rd gets the bytes from this address on.
    Load(u64, Size, Extension),
    /// The bytes from this address on become the low ones of this value.
    Store(u64, Size, u64),
    /// Nothing but that pc moves on.
    Next,
    /// A request to the machine (ECALL).
    Ask,
    /// A breakpoint in the program (EBREAK).
    Stop,
}
