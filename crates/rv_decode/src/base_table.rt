//! The rows of the instructions, and the table of RV64I.

ghost use Rattle.std.specs.Prelude.{◌≡◌, ◌≤◌, length};
ghost use Rattle.rv_decode.specs.Table.{row_of, rv64i_rows, text_of};
ghost use Rattle.rv_decode.specs.Fits.{FitsOneRow};

use crate::names::{Format, Name};
use crate::rows::CaseRow;
use crate::table::CaseTable;

/// Hands all rows, each as its name, mask, value, format and text, to the macro that is named: the 52 of RV64I, and behind them the
/// 13 of extension M.
macro_rules! with_rows {
    ($make:ident $($argument:expr)?) => {
        $make! {
            $($argument)?;
            Lui    0x0000_007F 0x0000_0037 U b"lui";
            Auipc  0x0000_007F 0x0000_0017 U b"auipc";
            Jal    0x0000_007F 0x0000_006F J b"jal";
            Jalr   0x0000_707F 0x0000_0067 I b"jalr";
            Beq    0x0000_707F 0x0000_0063 B b"beq";
            Bne    0x0000_707F 0x0000_1063 B b"bne";
            Blt    0x0000_707F 0x0000_4063 B b"blt";
            Bge    0x0000_707F 0x0000_5063 B b"bge";
            Bltu   0x0000_707F 0x0000_6063 B b"bltu";
            Bgeu   0x0000_707F 0x0000_7063 B b"bgeu";
            Lb     0x0000_707F 0x0000_0003 I b"lb";
            Lh     0x0000_707F 0x0000_1003 I b"lh";
            Lw     0x0000_707F 0x0000_2003 I b"lw";
            Ld     0x0000_707F 0x0000_3003 I b"ld";
            Lbu    0x0000_707F 0x0000_4003 I b"lbu";
            Lhu    0x0000_707F 0x0000_5003 I b"lhu";
            Lwu    0x0000_707F 0x0000_6003 I b"lwu";
            Sb     0x0000_707F 0x0000_0023 S b"sb";
            Sh     0x0000_707F 0x0000_1023 S b"sh";
            Sw     0x0000_707F 0x0000_2023 S b"sw";
            Sd     0x0000_707F 0x0000_3023 S b"sd";
            Addi   0x0000_707F 0x0000_0013 I b"addi";
            Slti   0x0000_707F 0x0000_2013 I b"slti";
            Sltiu  0x0000_707F 0x0000_3013 I b"sltiu";
            Xori   0x0000_707F 0x0000_4013 I b"xori";
            Ori    0x0000_707F 0x0000_6013 I b"ori";
            Andi   0x0000_707F 0x0000_7013 I b"andi";
            Slli   0xFC00_707F 0x0000_1013 H6 b"slli";
            Srli   0xFC00_707F 0x0000_5013 H6 b"srli";
            Srai   0xFC00_707F 0x4000_5013 H6 b"srai";
            Add    0xFE00_707F 0x0000_0033 R b"add";
            Sub    0xFE00_707F 0x4000_0033 R b"sub";
            Sll    0xFE00_707F 0x0000_1033 R b"sll";
            Slt    0xFE00_707F 0x0000_2033 R b"slt";
            Sltu   0xFE00_707F 0x0000_3033 R b"sltu";
            Xor    0xFE00_707F 0x0000_4033 R b"xor";
            Srl    0xFE00_707F 0x0000_5033 R b"srl";
            Sra    0xFE00_707F 0x4000_5033 R b"sra";
            Or     0xFE00_707F 0x0000_6033 R b"or";
            And    0xFE00_707F 0x0000_7033 R b"and";
            Addiw  0x0000_707F 0x0000_001B I b"addiw";
            Slliw  0xFE00_707F 0x0000_101B H5 b"slliw";
            Srliw  0xFE00_707F 0x0000_501B H5 b"srliw";
            Sraiw  0xFE00_707F 0x4000_501B H5 b"sraiw";
            Addw   0xFE00_707F 0x0000_003B R b"addw";
            Subw   0xFE00_707F 0x4000_003B R b"subw";
            Sllw   0xFE00_707F 0x0000_103B R b"sllw";
            Srlw   0xFE00_707F 0x0000_503B R b"srlw";
            Sraw   0xFE00_707F 0x4000_503B R b"sraw";
            Fence  0x0000_707F 0x0000_000F I b"fence";
            Ecall  0xFFFF_FFFF 0x0000_0073 N b"ecall";
            Ebreak 0xFFFF_FFFF 0x0010_0073 N b"ebreak";
            ;
            Mul    0xFE00_707F 0x0200_0033 R b"mul";
            Mulh   0xFE00_707F 0x0200_1033 R b"mulh";
            Mulhsu 0xFE00_707F 0x0200_2033 R b"mulhsu";
            Mulhu  0xFE00_707F 0x0200_3033 R b"mulhu";
            Div    0xFE00_707F 0x0200_4033 R b"div";
            Divu   0xFE00_707F 0x0200_5033 R b"divu";
            Rem    0xFE00_707F 0x0200_6033 R b"rem";
            Remu   0xFE00_707F 0x0200_7033 R b"remu";
            Mulw   0xFE00_707F 0x0200_003B R b"mulw";
            Divw   0xFE00_707F 0x0200_403B R b"divw";
            Divuw  0xFE00_707F 0x0200_503B R b"divuw";
            Remw   0xFE00_707F 0x0200_603B R b"remw";
            Remuw  0xFE00_707F 0x0200_703B R b"remuw";
            ;
        }
    };
}

/// The rows of RV64I as an array.
macro_rules! array_of_rows {
    (
        ;
        $($name:ident $mask:literal $value:literal $format:ident $text:literal;)*
        ;
        $($extension:tt)*
    ) => {
        [$(CaseRow { mask: $mask, value: $value, format: Format::$format, name: Name::$name }),*]
    };
}

/// The row of a name.
macro_rules! row_by_name {
    (
        $by:expr;
        $($($name:ident $mask:literal $value:literal $format:ident $text:literal;)* ;)*
    ) => {
        match $by {
            $($(Name::$name => {
                CaseRow { mask: $mask, value: $value, format: Format::$format, name: Name::$name }
            })*)*
        }
    };
}

/// The text of a name.
macro_rules! text_by_name {
    (
        $by:expr;
        $($($name:ident $mask:literal $value:literal $format:ident $text:literal;)* ;)*
    ) => {
        match $by {
            $($(Name::$name => $text,)*)*
        }
    };
}

/// The instruction table of RV64I.
pub fn rv64i() -> CaseTable<52>
    ensures rows { result ≡ rv64i_rows }
    ensures one { FitsOneRow rv64i_rows }
{
    CaseTable::new(with_rows!(array_of_rows))
}

impl Name {
    /// The row with this name, in the table that has it.
    pub fn row(self) -> CaseRow
        ensures { result ≡ row_of self }
    {
        with_rows!(row_by_name self)
    }

    /// The name in lower case, as it is printed.
    pub fn text(self) -> &'static [u8]
        ensures text { result.now ≡ text_of self }
        ensures short { length result.now ≤ 8 }
    {
        with_rows!(text_by_name self)
    }
}
