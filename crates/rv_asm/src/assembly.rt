ghost use Rattle.std.specs.Prelude.{◌≡◌, ◌≤◌, length, IfOk};
ghost use Rattle.asm_lines.specs.Lines.{lines_in};
ghost use Rattle.rv_asm.specs.Assembly.{count_refusal, first_outside, assembled, Is, IsFileOf, AssemblesBack};
ghost use Rattle.rv_asm.specs.Given.{outside_error, Finishes, IsWithin};

use crate::code::{Coded, code_of};
use crate::error::AsmError;
use crate::file::file_with;
use crate::labels::labels_of;
use crate::{MOST_ITEMS, MOST_TEXT_BYTES};
use asm_lines::{first_line, item_on, without_return};
use std::alloc::Global;

/// What is refused for how many items there are.
fn count_refusal(items: u32) -> Option<AsmError>
    ensures { result ≡ count_refusal items }
{
    if items == 0 {
        Some(AsmError::Empty)
    } else if items > MOST_ITEMS {
        Some(AsmError::TooMany)
    } else {
        None
    }
}

/// The file of items whose labels are there, or what is refused of them.
fn finish(alloc: Global, coded: &Coded) -> Result<Vec<u8>, AsmError>
    ensures { Finishes (λ file. file.items) coded.now result }
{
    if let Some(k) = coded.far {
        return Err(AsmError::OutOfReach(k));
    }
    if let Some(e) = count_refusal(coded.items) {
        return Err(e);
    }
    match file_with(alloc, coded.code.as_slice()) {
        Ok(file) => Ok(file),
        Err(_) => Err(AsmError::Memory),
    }
}

/// The file of a text of which no line is outside the grammar.
fn within(alloc: Global, text: &[u8]) -> Result<Vec<u8>, AsmError>
    requires { length text.now ≤ MOST_TEXT_BYTES }
    ensures { IsWithin (λ file. file.items) text.now result }
{
    match labels_of(alloc, text) {
        Ok(labels) => match code_of(alloc, &labels, text) {
            Ok(coded) => finish(alloc, &coded),
            Err(e) => Err(e),
        },
        Err(e) => Err(e),
    }
}

/// The first line that is outside the grammar.
fn first_outside(text: &[u8]) -> Option<u32>
    requires { length text.now ≤ MOST_TEXT_BYTES }
    ensures { result ≡ first_outside (lines_in text.now) }
{
    let mut rest = text;
    let mut k: u32 = 1;
    'lines: while !rest.is_empty() {
        let (line, behind) = first_line(rest);
        match item_on(without_return(line)) {
            Some(_) => {}
            None => return Some(k),
        }
        k += 1;
        rest = behind;
    }
    None
}

/// A refusal, unless a line is outside the grammar.
fn outside_or(text: &[u8], e: AsmError) -> AsmError
    requires { length text.now ≤ MOST_TEXT_BYTES }
    ensures { result ≡ outside_error (first_outside (lines_in text.now)) e }
{
    match first_outside(text) {
        Some(k) => AsmError::BadLine(k),
        None => e,
    }
}

/// The file of a text, or the first refusal that holds. A text has at most `MOST_TEXT_BYTES` bytes. It takes memory for
/// the labels and for the file.
pub fn assemble(alloc: Global, text: &[u8]) -> Result<Vec<u8>, AsmError>
    requires { length text.now ≤ MOST_TEXT_BYTES }
    ensures file { Is (λ file. file.items) (assembled text.now) result }
    ensures loaded { IfOk result (λ file. IsFileOf text.now file.items) }
    ensures back { AssemblesBack }
{
    match within(alloc, text) {
        Ok(file) => Ok(file),
        Err(e) => Err(outside_or(text, e)),
    }
}
