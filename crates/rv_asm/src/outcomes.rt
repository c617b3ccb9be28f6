ghost use Rattle.std.specs.Prelude.{◌≡◌, ◌-◌, ◌<◌, ◌^◌, IfSome};
ghost use Rattle.rv_decode.specs.Encodable.{IsEncodable};
ghost use Rattle.rv_decode.specs.Encoding.{word_of};
ghost use Rattle.rv_decode.specs.Table.{row_of};
ghost use Rattle.asm_lines.specs.Kinds.{placed};
ghost use Rattle.asm_lines.specs.Said.{said, IsSound, IsReaching};
ghost use Rattle.rv_asm.specs.Given.{said_labels};
ghost use Rattle.rv_asm.specs.Outcomes.{distance, reached, reach, outcome, with_imm};

use crate::labels::place_of;
use asm_lines::{Item, placed};
use indexmap::IndexMap;
use rv_decode::{Format, Instr, Name, encode};

/// What an item comes to.
#[derive(Clone, Copy, Debug)]
pub enum Outcome {
    /// Its word.
    Word(u32),
    /// Its label isn't there.
    Missing,
    /// Its label is out of its immediate's range.
    Far,
}

/// How far item m is from item n, in bytes.
fn distance(n: u32, m: u32) -> i64
    ensures { result ≡ distance n m }
{
    4 * i64::from(m) - 4 * i64::from(n)
}

/// The format of an instruction's word.
fn format_of(name: Name) -> Format
    ensures { result ≡ (row_of name).format }
{
    name.row().format
}

/// An instruction with an immediate, if there is one.
fn reached(i: Instr, imm: Option<i64>) -> Outcome
    requires { IfSome imm (λ imm. IsEncodable (with_imm i imm)) }
    ensures { result ≡ reached i imm }
{
    match imm {
        Some(imm) => Outcome::Word(encode(&Instr {
            name: i.name,
            rd: i.rd,
            rs1: i.rs1,
            rs2: i.rs2,
            imm,
        })),
        None => Outcome::Far,
    }
}

/// An instruction that goes from item n to the item of a label.
fn reach(i: Instr, n: u32, place: Option<u32>) -> Outcome
    requires { IsReaching i }
    ensures { result ≡ reach i n place }
{
    match place {
        Some(m) => reached(i, placed(format_of(i.name), distance(n, m))),
        None => Outcome::Missing,
    }
}

/// What item n comes to.
pub(crate) fn comes_to<'a>(labels: &IndexMap<&'a [u8], u32>, n: u32, item: Item<'a>) -> Outcome
    requires { IsSound (said item) }
    ensures { result ≡ outcome (said_labels labels.now.entries) n (said item.entry) }
{
    match item {
        Item::Plain(i) => Outcome::Word(encode(&i)),
        Item::Reaching(i, name) => reach(i, n, place_of(labels, name)),
        Item::Raw(word) => Outcome::Word(word),
    }
}
