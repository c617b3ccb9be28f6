//! The names of the instructions, and the formats of their words.

/// The 52 instructions of RV64I, in the order of the instruction table, and the 13 of its extension M, which have a table of their
/// own.
#[derive(Clone, Copy, Debug, PartialEq, Eq)]
pub enum Name {
    Lui,
    Auipc,
    Jal,
    Jalr,
    Beq,
    Bne,
    Blt,
    Bge,
    Bltu,
    Bgeu,
    Lb,
    Lh,
    Lw,
    Ld,
    Lbu,
    Lhu,
    Lwu,
    Sb,
    Sh,
    Sw,
    Sd,
    Addi,
    Slti,
    Sltiu,
    Xori,
    Ori,
    Andi,
    Slli,
    Srli,
    Srai,
    Add,
    Sub,
    Sll,
    Slt,
    Sltu,
    Xor,
    Srl,
    Sra,
    Or,
    And,
    Addiw,
    Slliw,
    Srliw,
    Sraiw,
    Addw,
    Subw,
    Sllw,
    Srlw,
    Sraw,
    Fence,
    Ecall,
    Ebreak,
    Mul,
    Mulh,
    Mulhsu,
    Mulhu,
    Div,
    Divu,
    Rem,
    Remu,
    Mulw,
    Divw,
    Divuw,
    Remw,
    Remuw,
}

/// Which fields a word has, and where its immediate stands.
#[derive(Clone, Copy, Debug, PartialEq, Eq)]
pub enum Format {
    /// Two sources and a destination.
    R,
    /// A source, a destination and a signed immediate of 12 bits.
    I,
    /// Two sources and a signed immediate of 12 bits: a store.
    S,
    /// Two sources and an even signed immediate of 13 bits: a branch.
    B,
    /// A destination and a multiple of 4096 of 32 bits, signed.
    U,
    /// A destination and an even signed immediate of 21 bits: a jump.
    J,
    /// A source, a destination and an amount of 6 bits: a shift of 64 bits.
    H6,
    /// A source, a destination and an amount of 5 bits: a shift of 32 bits.
    H5,
    /// No field: the word is fixed.
    N,
}
