ghost use Rattle.std.specs.Prelude.{◌≡◌, find, get_or};
ghost use Rattle.rv_decode.specs.Table.{text_of};
ghost use Rattle.asm_lines.specs.Kinds.{is_text, name_word};

use rv_decode::Name;

// The names of the rows of RV64I by their first letters, in the table's order, and those with an `s` by their lengths too.

const NAMES_L: [Name; 8] = [
    Name::Lui,
    Name::Lb,
    Name::Lh,
    Name::Lw,
    Name::Ld,
    Name::Lbu,
    Name::Lhu,
    Name::Lwu,
];

const NAMES_A: [Name; 7] = [
    Name::Auipc,
    Name::Addi,
    Name::Andi,
    Name::Add,
    Name::And,
    Name::Addiw,
    Name::Addw,
];

const NAMES_J: [Name; 2] = [Name::Jal, Name::Jalr];

const NAMES_B: [Name; 6] = [
    Name::Beq,
    Name::Bne,
    Name::Blt,
    Name::Bge,
    Name::Bltu,
    Name::Bgeu,
];

const NAMES_S2: [Name; 4] = [Name::Sb, Name::Sh, Name::Sw, Name::Sd];

const NAMES_S4: [Name; 9] = [
    Name::Slti,
    Name::Slli,
    Name::Srli,
    Name::Srai,
    Name::Sltu,
    Name::Subw,
    Name::Sllw,
    Name::Srlw,
    Name::Sraw,
];

const NAMES_S5: [Name; 4] = [Name::Sltiu, Name::Slliw, Name::Srliw, Name::Sraiw];

const NAMES_S3: [Name; 5] = [Name::Sub, Name::Sll, Name::Slt, Name::Srl, Name::Sra];

const NAMES_E: [Name; 2] = [Name::Ecall, Name::Ebreak];

/// All of them.
const NAMES: [Name; 52] = [
    Name::Lui,
    Name::Auipc,
    Name::Jal,
    Name::Jalr,
    Name::Beq,
    Name::Bne,
    Name::Blt,
    Name::Bge,
    Name::Bltu,
    Name::Bgeu,
    Name::Lb,
    Name::Lh,
    Name::Lw,
    Name::Ld,
    Name::Lbu,
    Name::Lhu,
    Name::Lwu,
    Name::Sb,
    Name::Sh,
    Name::Sw,
    Name::Sd,
    Name::Addi,
    Name::Slti,
    Name::Sltiu,
    Name::Xori,
    Name::Ori,
    Name::Andi,
    Name::Slli,
    Name::Srli,
    Name::Srai,
    Name::Add,
    Name::Sub,
    Name::Sll,
    Name::Slt,
    Name::Sltu,
    Name::Xor,
    Name::Srl,
    Name::Sra,
    Name::Or,
    Name::And,
    Name::Addiw,
    Name::Slliw,
    Name::Srliw,
    Name::Sraiw,
    Name::Addw,
    Name::Subw,
    Name::Sllw,
    Name::Srlw,
    Name::Sraw,
    Name::Fence,
    Name::Ecall,
    Name::Ebreak,
];

/// The name among some that a word is.
#[inline(always)]
fn name_among(names: &[Name], word: &[u8]) -> Option<Name>
    ensures { result ≡ find (λ n. is_text word.now (text_of n)) names.now }
{
    names.iter().copied().find(|name| word == name.text())
}

/// The name with an `s` first that a word is.
fn name_with_s(word: &[u8]) -> Option<Name>
    requires { get_or word.now 0 0 ≡ 115 }
    ensures { result ≡ name_word word.now }
{
    match word.len() {
        2 => name_among(&NAMES_S2, word),
        3 => name_among(&NAMES_S3, word),
        4 => name_among(&NAMES_S4, word),
        5 => name_among(&NAMES_S5, word),
        _ => name_among(&NAMES, word),
    }
}

/// The name that a word is.
pub(crate) fn name_word(word: &[u8]) -> Option<Name>
    ensures { result ≡ name_word word.now }
{
    if word.is_empty() {
        return name_among(&NAMES, word);
    }
    match word[0] {
        b'a' => name_among(&NAMES_A, word),
        b'b' => name_among(&NAMES_B, word),
        b'e' => name_among(&NAMES_E, word),
        b'j' => name_among(&NAMES_J, word),
        b'l' => name_among(&NAMES_L, word),
        b's' => name_with_s(word),
        _ => name_among(&NAMES, word),
    }
}
