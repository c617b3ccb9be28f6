/// Why an instruction can't be done.
#[derive(Clone, Copy, Debug, PartialEq, Eq)]
pub enum FaultKind {
    /// The pc, or the target of a jump or a taken branch, isn't a multiple of 4.
    Align,
    /// The page of the pc isn't there or may not be executed.
    Fetch,
    /// The fetched word is no instruction.
    Illegal,
    /// A byte of a load lies in a page that isn't there or may not be read.
    Load,
    /// A byte of a store lies in a page that isn't there or may not be written.
    Store,
    /// The instruction is EBREAK.
    Break,
}

/// Whether a process runs, and else how it ended.
#[derive(Clone, Copy, Debug, PartialEq, Eq)]
pub enum ProcessState {
    Running,
    /// It asked to exit, with this code.
    Exited(u8),
    /// An instruction couldn't be done: the kind, and the address at fault.
    Faulted(FaultKind, u64),
}
