ghost use Rattle.std.specs.Prelude.{◌≡◌, ◌≤◌, ◌==◌, length};
ghost use Rattle.std.specs.List.{list_any};
ghost use Rattle.asm_lines.specs.Lines.{lines_in};
ghost use Rattle.asm_lines.specs.Said.{said_label};
ghost use Rattle.rv_asm.specs.Labels.{labels_of, with_label, place_of};
ghost use Rattle.rv_asm.specs.Given.{said_labels, GivesLabels, Puts};

use crate::MOST_TEXT_BYTES;
use crate::error::AsmError;
use asm_lines::{first_line, front_of, has_item, without_return};
use indexmap::IndexMap;
use std::alloc::Global;

/// How often a byte stands in a text.
fn count(text: &[u8], byte: u8) -> usize {
    text.iter().filter(|b| **b == byte).count()
}

/// Labels that a text has no more of: each stands on a line of its own and before a colon.
fn most_labels(text: &[u8]) -> usize {
    count(text, b':').min(count(text, b'\n').saturating_add(1))
}

/// Puts a label of line k before item n.
fn put_label<'a>(
    labels: &mut IndexMap<&'a [u8], u32>,
    k: u32,
    n: u32,
    name: &'a [u8],
) -> Result<(), AsmError>
    ensures { Puts (said_labels labels.new.entries)
        (with_label k n (said_labels labels.old.entries) (Some name.now)) result }
{
    match labels.insert(name, n) {
        Ok(Some(_)) => Err(AsmError::Twice(k)),
        Ok(None) => Ok(()),
        Err(_) => Err(AsmError::Memory),
    }
}

/// Puts the label of line k before item n, if there is one.
fn with_label<'a>(
    labels: &mut IndexMap<&'a [u8], u32>,
    k: u32,
    n: u32,
    label: Option<&'a [u8]>,
) -> Result<(), AsmError>
    ensures { Puts (said_labels labels.new.entries)
        (with_label k n (said_labels labels.old.entries) (said_label label.entry)) result }
{
    match label {
        Some(name) => put_label(labels, k, n, name),
        None => Ok(()),
    }
}

/// The number of the item behind a label.
pub(crate) fn place_of<'a>(labels: &IndexMap<&'a [u8], u32>, name: &'a [u8]) -> Option<u32>
    ensures { result ≡ place_of (said_labels labels.now.entries) name.now }
{
    labels.get(name).copied()
}

/// The labels of a text that has a colon.
fn labels_with<'a>(alloc: Global, text: &'a [u8]) -> Result<IndexMap<&'a [u8], u32>, AsmError>
    requires { length text.now ≤ MOST_TEXT_BYTES }
    ensures { GivesLabels (λ m. said_labels m.entries) (labels_of (lines_in text.now)) result }
{
    let mut labels = IndexMap::new(alloc);
    if labels.reserve(most_labels(text)).is_err() {
        return Err(AsmError::Memory);
    }
    let mut rest = text;
    let mut k: u32 = 1;
    let mut n: u32 = 0;
    'lines: while !rest.is_empty() {
        let (line, behind) = first_line(rest);
        let front = front_of(without_return(line));
        match with_label(&mut labels, k, n, front.label) {
            Ok(()) => {}
            Err(e) => return Err(e),
        }
        n += u32::from(has_item(&front));
        k += 1;
        rest = behind;
    }
    Ok(labels)
}

/// Whether a text has a colon.
fn has_colon(text: &[u8]) -> bool
    ensures { result ≡ list_any (λ b. b == 58) text.now }
{
    text.iter().any(|b| *b == b':')
}

/// The labels of a text, each with the number of the item behind it, or the first line whose label stands before it.
pub(crate) fn labels_of<'a>(
    alloc: Global,
    text: &'a [u8],
) -> Result<IndexMap<&'a [u8], u32>, AsmError>
    requires { length text.now ≤ MOST_TEXT_BYTES }
    ensures { GivesLabels (λ m. said_labels m.entries) (labels_of (lines_in text.now)) result }
{
    if has_colon(text) {
        labels_with(alloc, text)
    } else {
        Ok(IndexMap::new(alloc))
    }
}
