//! What is fixed for a whole run.

/// What is fixed for all commands of a run.
#[derive(Clone, Copy, Debug, PartialEq, Eq)]
pub struct Modes {
    /// How many frames there are: 1 to 65,536.
    pub frames: u32,
    /// How many turns a process takes before the next one does: 1 or more.
    pub quantum: u32,
    /// Whether there is extension M: multiplication and division.
    pub extension: bool,
    /// Whether processes may speculate by themselves, by requests of ECALL.
    pub calls: bool,
}
