//! An instruction as its name and its fields.

use crate::names::Name;

/// An instruction. A field that its format lacks is 0.
#[derive(Clone, Copy, Debug, PartialEq, Eq)]
pub struct Instr {
    pub name: Name,
    /// The number of the destination register.
    pub rd: u8,
    /// The number of the first source register.
    pub rs1: u8,
    /// The number of the second source register.
    pub rs2: u8,
    /// The immediate, with its sign.
    pub imm: i64,
}
