ghost use Rattle.std.specs.Prelude.{◌≡◌, Option, pos};
ghost use Rattle.std.specs.Option.{option_map};
ghost use Rattle.rv_decode.specs.Table.{row_of};
ghost use Rattle.report_text.specs.Instructions.{opcode};
ghost use Rattle.asm_lines.specs.Words.{words};
ghost use Rattle.asm_lines.specs.Kinds.{Kind, and_then, register_word, immediate_word, offset_word, target_word};
ghost use Rattle.asm_lines.specs.Items.{at_end, pair, triple, instr, going, register_item, immediate_item, load_item, store_item, branch_item, upper_item, jump_item, i_item, item_by, item_of_row, item_in, raw_item};
ghost use Rattle.asm_lines.specs.Said.{said, said_target, said_branch, said_jump};

use crate::kinds::{immediate_word, is_label, offset_word, register_word};
use crate::names::name_word;
use crate::numbers::raw_word;
use crate::words::{no_words, one_word, three_words, two_words};
use rv_decode::{CaseRow, Format, Instr, Name};

/// Where a branch or a jump goes.
#[derive(Clone, Copy, Debug)]
pub enum Target<'a> {
    /// So many bytes on.
    By(i64),
    /// To the label of that name.
    To(&'a [u8]),
}

/// An item of a program.
#[derive(Clone, Copy, Debug)]
pub enum Item<'a> {
    /// An instruction with its immediate.
    Plain(Instr),
    /// An instruction whose immediate is how far the label of that name is.
    Reaching(Instr, &'a [u8]),
    /// A word as it stands.
    Raw(u32),
}

/// Where a branch or a jump of that format goes.
#[tactic(auto, unfolding(crate::specs::Kinds::target_word))]
fn target_word<'a>(format: Format, word: &'a [u8]) -> Option<Target<'a>>
    ensures { option_map said_target result ≡ target_word format word.now }
{
    if is_label(word) {
        return Some(Target::To(word));
    }
    match immediate_word(format, word) {
        Some(n) => Some(Target::By(n)),
        None => None,
    }
}

/// What two words say that are registers.
fn two_registers(a: &[u8], b: &[u8]) -> Option<(u8, u8)>
    ensures { result ≡ and_then (register_word a.now)
        (λ a. option_map (λ b. (a, b)) (register_word b.now)) }
{
    match register_word(a) {
        Some(a) => match register_word(b) {
            Some(b) => Some((a, b)),
            None => None,
        },
        None => None,
    }
}

/// Three registers.
fn three_registers(text: &[u8]) -> Option<(u8, u8, u8)>
    ensures { result ≡ triple register_word register_word register_word (words text.now) }
{
    match three_words(text) {
        Some((a, b, c)) => match two_registers(a, b) {
            Some((a, b)) => match register_word(c) {
                Some(c) => Some((a, b, c)),
                None => None,
            },
            None => None,
        },
        None => None,
    }
}

/// Two registers and an immediate.
fn two_and_immediate(format: Format, text: &[u8]) -> Option<(u8, u8, i64)>
    ensures { result ≡ triple register_word register_word (immediate_word format) (words text.now) }
{
    match three_words(text) {
        Some((a, b, n)) => match two_registers(a, b) {
            Some((a, b)) => match immediate_word(format, n) {
                Some(n) => Some((a, b, n)),
                None => None,
            },
            None => None,
        },
        None => None,
    }
}

/// Two registers and where a branch goes.
fn two_and_target<'a>(format: Format, text: &'a [u8]) -> Option<(u8, u8, Target<'a>)>
    ensures { option_map said_branch result
        ≡ triple register_word register_word (target_word format) (words text.now) }
{
    match three_words(text) {
        Some((a, b, t)) => match two_registers(a, b) {
            Some((a, b)) => match target_word(format, t) {
                Some(t) => Some((a, b, t)),
                None => None,
            },
            None => None,
        },
        None => None,
    }
}

/// A register and an immediate.
fn one_and_immediate(format: Format, text: &[u8]) -> Option<(u8, i64)>
    ensures { result ≡ pair register_word (immediate_word format) (words text.now) }
{
    match two_words(text) {
        Some((a, n)) => match register_word(a) {
            Some(a) => match immediate_word(format, n) {
                Some(n) => Some((a, n)),
                None => None,
            },
            None => None,
        },
        None => None,
    }
}

/// A register and where a jump goes.
fn one_and_target<'a>(format: Format, text: &'a [u8]) -> Option<(u8, Target<'a>)>
    ensures { option_map said_jump result ≡ pair register_word (target_word format) (words text.now) }
{
    match two_words(text) {
        Some((a, t)) => match register_word(a) {
            Some(a) => match target_word(format, t) {
                Some(t) => Some((a, t)),
                None => None,
            },
            None => None,
        },
        None => None,
    }
}

/// A register, and the immediate and the register of an address.
fn one_and_offset(format: Format, text: &[u8]) -> Option<(u8, (i64, u8))>
    ensures { result ≡ pair register_word (offset_word format) (words text.now) }
{
    match two_words(text) {
        Some((a, o)) => match register_word(a) {
            Some(a) => match offset_word(format, o) {
                Some(o) => Some((a, o)),
                None => None,
            },
            None => None,
        },
        None => None,
    }
}

/// An instruction that goes to a target.
fn going<'a>(name: Name, rd: u8, rs1: u8, rs2: u8, target: Target<'a>) -> Item<'a>
    ensures { said result ≡ going (instr name rd rs1 rs2) (said_target target.entry) }
{
    match target {
        Target::By(imm) => Item::Plain(Instr {
            name,
            rd,
            rs1,
            rs2,
            imm,
        }),
        Target::To(label) => Item::Reaching(
            Instr {
                name,
                rd,
                rs1,
                rs2,
                imm: 0,
            },
            label,
        ),
    }
}

/// The item, where nothing stands behind it.
fn at_end<'a>(item: Item<'a>, text: &'a [u8]) -> Option<Item<'a>>
    ensures { option_map said result ≡ at_end (said item.entry) (words text.now) }
{
    if no_words(text) { Some(item) } else { None }
}

/// Three registers.
fn register_item<'a>(name: Name, text: &'a [u8]) -> Option<Item<'a>>
    ensures { option_map said result ≡ register_item name (words text.now) }
{
    match three_registers(text) {
        Some((rd, rs1, rs2)) => Some(Item::Plain(Instr {
            name,
            rd,
            rs1,
            rs2,
            imm: 0,
        })),
        None => None,
    }
}

/// Two registers and an immediate: arithmetic and shifts.
fn immediate_item<'a>(format: Format, name: Name, text: &'a [u8]) -> Option<Item<'a>>
    ensures { option_map said result ≡ immediate_item format name (words text.now) }
{
    match two_and_immediate(format, text) {
        Some((rd, rs1, imm)) => Some(Item::Plain(Instr {
            name,
            rd,
            rs1,
            rs2: 0,
            imm,
        })),
        None => None,
    }
}

/// A load, and the jump to a register.
fn load_item<'a>(name: Name, text: &'a [u8]) -> Option<Item<'a>>
    ensures { option_map said result ≡ load_item name (words text.now) }
{
    match one_and_offset(Format::I, text) {
        Some((rd, (imm, rs1))) => Some(Item::Plain(Instr {
            name,
            rd,
            rs1,
            rs2: 0,
            imm,
        })),
        None => None,
    }
}

/// A register and the address that it is stored at.
fn store_item<'a>(name: Name, text: &'a [u8]) -> Option<Item<'a>>
    ensures { option_map said result ≡ store_item name (words text.now) }
{
    match one_and_offset(Format::S, text) {
        Some((rs2, (imm, rs1))) => Some(Item::Plain(Instr {
            name,
            rd: 0,
            rs1,
            rs2,
            imm,
        })),
        None => None,
    }
}

/// Two registers and where a branch goes.
fn branch_item<'a>(name: Name, text: &'a [u8]) -> Option<Item<'a>>
    ensures { option_map said result ≡ branch_item name (words text.now) }
{
    match two_and_target(Format::B, text) {
        Some((rs1, rs2, target)) => Some(going(name, 0, rs1, rs2, target)),
        None => None,
    }
}

/// A register and an upper immediate.
fn upper_item<'a>(name: Name, text: &'a [u8]) -> Option<Item<'a>>
    ensures { option_map said result ≡ upper_item name (words text.now) }
{
    match one_and_immediate(Format::U, text) {
        Some((rd, imm)) => Some(Item::Plain(Instr {
            name,
            rd,
            rs1: 0,
            rs2: 0,
            imm,
        })),
        None => None,
    }
}

/// A register and where a jump goes.
fn jump_item<'a>(name: Name, text: &'a [u8]) -> Option<Item<'a>>
    ensures { option_map said result ≡ jump_item name (words text.now) }
{
    match one_and_target(Format::J, text) {
        Some((rd, target)) => Some(going(name, rd, 0, 0, target)),
        None => None,
    }
}

/// The major opcode of a row.
fn opcode(row: CaseRow) -> u32
    ensures { result ≡ opcode row }
{
    row.value % (1 << 7)
}

/// The operands of a row of the format I: loads, the jump to a register, the fence, and arithmetic.
fn i_item<'a>(name: Name, row: CaseRow, text: &'a [u8]) -> Option<Item<'a>>
    ensures { option_map said result ≡ i_item name row (words text.now) }
{
    let opcode = opcode(row);
    if opcode == 0x03 || opcode == 0x67 {
        load_item(name, text)
    } else if opcode == 0x0F {
        at_end(Item::Raw(0x0FF0_000F), text)
    } else {
        immediate_item(Format::I, name, text)
    }
}

/// The operands of a row, by its format.
fn item_by<'a>(name: Name, row: CaseRow, text: &'a [u8]) -> Option<Item<'a>>
    ensures { option_map said result ≡ item_by row.format name row (words text.now) }
{
    match row.format {
        Format::R => register_item(name, text),
        Format::I => i_item(name, row, text),
        Format::S => store_item(name, text),
        Format::B => branch_item(name, text),
        Format::U => upper_item(name, text),
        Format::J => jump_item(name, text),
        Format::H6 => immediate_item(Format::H6, name, text),
        Format::H5 => immediate_item(Format::H5, name, text),
        Format::N => at_end(
            Item::Plain(Instr {
                name,
                rd: 0,
                rs1: 0,
                rs2: 0,
                imm: 0,
            }),
            text,
        ),
    }
}

/// `.word` and a number.
fn raw_item<'a>(text: &'a [u8]) -> Option<Item<'a>>
    ensures { option_map said result ≡ raw_item (words text.now) }
{
    match one_word(text) {
        Some(word) => match raw_word(word) {
            Some(n) => Some(Item::Raw(n)),
            None => None,
        },
        None => None,
    }
}

/// The operands of the row of a name.
fn item_of_row<'a>(name: Name, text: &'a [u8]) -> Option<Item<'a>>
    ensures { option_map said result ≡ item_of_row name (words text.now) }
{
    item_by(name, name.row(), text)
}

/// The item that a word and the text behind it are.
pub(crate) fn item_in<'a>(word: &'a [u8], text: &'a [u8]) -> Option<Item<'a>>
    ensures { option_map said result ≡ item_in word.now (words text.now) }
{
    if word == b".word".as_slice() {
        return raw_item(text);
    }
    match name_word(word) {
        Some(name) => item_of_row(name, text),
        None => None,
    }
}
