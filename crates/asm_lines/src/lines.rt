ghost use Rattle.std.specs.Prelude.{◌≡◌, ◌<◌, ◌==◌, ◌∷◌, [], not, length, Some, None, Option, IfSome, MatchOption};
ghost use Rattle.std.specs.Option.{option_map};
ghost use Rattle.script_text.specs.Lines.{script_lines, without_return};
ghost use Rattle.asm_lines.specs.Words.{words};
ghost use Rattle.asm_lines.specs.Lines.{front, front_of, may_stand, item_at, item_behind, item_on};
ghost use Rattle.asm_lines.specs.Said.{said, said_label, said_front, IsSound};
ghost use Rattle.asm_lines.specs.Back.{ReadsBack};

use crate::items::{Item, item_in};
use crate::kinds::{cut, is_label};
use crate::words::{next_word, no_words};

/// A line: the word before the colon that is its second word, and the text of its item.
#[derive(Clone, Copy, Debug)]
pub struct Front<'a> {
    pub label: Option<&'a [u8]>,
    pub item: &'a [u8],
}

/// The first line without its end, and the bytes behind its end.
#[inline]
pub fn first_line(bytes: &[u8]) -> (&[u8], &[u8])
    requires { 0 < length bytes.now }
    ensures lines { script_lines bytes.now ≡ result.0.now ∷ script_lines result.1.now }
    ensures shorter { length result.1.now < length bytes.now }
{
    match cut(bytes, b'\n') {
        Some(parts) => parts,
        None => (bytes, &[]),
    }
}

/// A line without the byte 0D directly before its end.
#[inline]
pub fn without_return(line: &[u8]) -> &[u8]
    ensures { result.now ≡ without_return line.now }
{
    let n = line.len();
    if n == 0 {
        return line;
    }
    if line[n - 1] == b'\r' {
        &line[..n - 1]
    } else {
        line
    }
}

/// The label that stands before the item of a line with words, and the item's text.
#[tactic(auto, unfolding(crate::specs::Lines::front_of))]
fn front_of_words<'a>(line: &'a [u8]) -> Front<'a>
    ensures { said_front result ≡ front_of (words line.now) }
{
    match next_word(line) {
        Some((word, rest)) => match next_word(rest) {
            Some((mark, behind)) => {
                if mark == b":".as_slice() {
                    Front {
                        label: Some(word),
                        item: behind,
                    }
                } else {
                    Front {
                        label: None,
                        item: line,
                    }
                }
            }
            None => Front {
                label: None,
                item: line,
            },
        },
        None => Front {
            label: None,
            item: line,
        },
    }
}

/// The label that stands before a line's item, and the item's text.
#[inline]
pub fn front_of<'a>(line: &'a [u8]) -> Front<'a>
    ensures { said_front result ≡ front_of (words line.now) }
{
    if line.is_empty() {
        return Front {
            label: None,
            item: line,
        };
    }
    front_of_words(line)
}

/// Whether an item stands on a line.
#[inline]
pub fn has_item(front: &Front<'_>) -> bool
    ensures { result ≡ not (length (said_front front.now).item == 0) }
{
    !no_words(front.item)
}

/// Whether a word may stand before a line's item, where there is one.
fn may_stand(label: Option<&[u8]>) -> bool
    ensures { result ≡ may_stand (said_label label.entry) }
{
    match label {
        Some(word) => is_label(word),
        None => true,
    }
}

/// The item that a text is, or none where it has no word.
fn item_at<'a>(text: &'a [u8]) -> Option<Option<Item<'a>>>
    ensures { option_map (option_map said) result ≡ item_at (words text.now) }
{
    match next_word(text) {
        Some((word, rest)) => match item_in(word, rest) {
            Some(item) => Some(Some(item)),
            None => None,
        },
        None => Some(None),
    }
}

/// The item behind a line's label.
#[tactic(auto, unfolding(crate::specs::Lines::item_on))]
fn item_behind<'a>(line: &'a [u8]) -> Option<Option<Item<'a>>>
    ensures { option_map (option_map said) result ≡ item_on (words line.now) }
{
    let front = front_of(line);
    if may_stand(front.label) {
        item_at(front.item)
    } else {
        None
    }
}

/// The item on a line, if it has one; nothing where the line is outside the grammar.
#[inline]
pub fn item_on<'a>(line: &'a [u8]) -> Option<Option<Item<'a>>>
    ensures is { option_map (option_map said) result ≡ item_on (words line.now) }
    ensures sound { IfSome result (λ o. IfSome o (λ item. IsSound (said item))) }
    ensures back { ReadsBack }
{
    if line.is_empty() {
        return Some(None);
    }
    item_behind(line)
}
