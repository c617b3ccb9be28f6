ghost use Rattle.std.specs.Prelude.{◌≡◌, ◌≤◌, ◌<◌, ◌+◌, ◌^◌, ◌∷◌, [], Some, length, IfSome};
ghost use Rattle.std.specs.Option.{option_map, option_or};
ghost use Rattle.asm_lines.specs.Lines.{lines_in};
ghost use Rattle.asm_lines.specs.Said.{said, IsSound};
ghost use Rattle.rv_asm.specs.declared.outcomes.Outcome.TheVariants.{Word};
ghost use Rattle.rv_asm.specs.Outcomes.{with_outcome};
ghost use Rattle.rv_asm.specs.Given.{said_labels, Notes, Codes};

use crate::error::AsmError;
use crate::outcomes::{Outcome, comes_to};
use crate::{MOST_ITEMS, MOST_TEXT_BYTES};
use asm_lines::{Item, first_line, item_on, without_return};
use indexmap::IndexMap;
use std::alloc::Global;

/// What the items so far are made into.
#[derive(Drop)]
pub struct Coded {
    /// The bytes of their words, of no more than `MOST_ITEMS` items.
    pub code: Vec<u8>,
    /// How many items there are.
    pub items: u32,
    /// The first line whose label is out of reach.
    pub far: Option<u32>,
}

/// Puts a word behind the others, unless there are enough.
fn put_word(coded: &mut Coded, line: u32, word: u32) -> Result<(), AsmError>
    requires { coded.old.items + 1 < 2 ^ 32 }
    ensures { Notes ((line, Word word) ∷ []) coded.old coded.new result }
{
    if coded.items < MOST_ITEMS {
        if coded.code.extend_from_slice(&word.to_le_bytes()).is_err() {
            return Err(AsmError::Memory);
        }
    }
    coded.items += 1;
    Ok(())
}

/// The first of two lines, where there is one before.
fn first_of(before: Option<u32>, line: u32) -> Option<u32>
    ensures { result ≡ option_or before (Some line) }
{
    match before {
        Some(k) => Some(k),
        None => Some(line),
    }
}

/// Takes in what an item of a line comes to.
fn put_outcome(coded: &mut Coded, line: u32, outcome: Outcome) -> Result<(), AsmError>
    requires { coded.old.items + 1 < 2 ^ 32 }
    ensures { Notes ((line, outcome) ∷ []) coded.old coded.new result }
{
    match outcome {
        Outcome::Word(word) => put_word(coded, line, word),
        Outcome::Missing => Err(AsmError::NoLabel(line)),
        Outcome::Far => {
            coded.far = first_of(coded.far, line);
            coded.items += 1;
            Ok(())
        }
    }
}

/// Takes in the item of a line, if it has one.
fn put_item<'a>(
    coded: &mut Coded,
    labels: &IndexMap<&'a [u8], u32>,
    line: u32,
    item: Option<Item<'a>>,
) -> Result<(), AsmError>
    requires room { coded.old.items + 1 < 2 ^ 32 }
    requires sound { IfSome item (λ item. IsSound (said item)) }
    ensures { Notes
        (with_outcome (said_labels labels.now.entries) line coded.old.items (Some (option_map said item.entry)) [])
        coded.old coded.new result }
{
    match item {
        Some(item) => {
            let outcome = comes_to(labels, coded.items, item);
            put_outcome(coded, line, outcome)
        }
        None => Ok(()),
    }
}

/// What the items of a text are made into, with the labels of it.
pub(crate) fn code_of<'a>(
    alloc: Global,
    labels: &IndexMap<&'a [u8], u32>,
    text: &'a [u8],
) -> Result<Coded, AsmError>
    requires { length text.now ≤ MOST_TEXT_BYTES }
    ensures { Codes (said_labels labels.now.entries) (lines_in text.now) result }
{
    let mut coded = Coded {
        code: Vec::new(alloc),
        items: 0,
        far: None,
    };
    let mut rest = text;
    let mut k: u32 = 1;
    'lines: while !rest.is_empty() {
        let (line, behind) = first_line(rest);
        match item_on(without_return(line)) {
            Some(item) => match put_item(&mut coded, labels, k, item) {
                Ok(()) => {}
                Err(e) => return Err(e),
            },
            None => return Err(AsmError::BadLine(k)),
        }
        k += 1;
        rest = behind;
    }
    Ok(coded)
}
