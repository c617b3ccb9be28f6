ghost use Rattle.std.specs.Prelude.{◌≡◌, ◌<◌, ◌==◌, ◌++◌, ◌∷◌, [], length, MatchOption, None, Some, false, true};
ghost use Rattle.std.specs.List.{list_all};
ghost use Rattle.script_text.specs.Words.{is_blank};
ghost use Rattle.asm_lines.specs.Words.{is_mark, begins_comment, is_inner, words, ends_word, begins_word};
ghost use Rattle.asm_lines.specs.Items.{is_comma, behind_comma, one_word, two_words, three_words};

/// Whether a byte stands between words.
#[inline]
fn is_blank(b: u8) -> bool
    ensures { result ≡ is_blank b }
{
    b == b' ' || b == b'\t'
}

/// Whether a byte is a word by itself.
#[inline]
fn is_mark(b: u8) -> bool
    ensures { result ≡ is_mark b }
{
    b == b',' || b == b':'
}

/// Whether a byte stands within words.
#[inline]
fn is_inner(b: u8) -> bool
    ensures { result ≡ is_inner b }
{
    if b > b',' {
        b != b':'
    } else {
        !(b == b'#' || is_blank(b) || b == b',')
    }
}

/// The word that a text begins with, and the text behind it.
fn front_word(text: &[u8]) -> (&[u8], &[u8])
    requires { begins_word text.now ≡ true }
    ensures { words text.now ≡ result.0.now ∷ words result.1.now }
{
    if is_mark(text[0]) {
        return (&text[..1], &text[1..]);
    }
    for (i, b) in text.iter().enumerate() {
        if !is_inner(*b) {
            return (&text[..i], &text[i..]);
        }
    }
    (text, &[])
}

/// The first word of a text, and the text behind it.
#[inline]
pub(crate) fn next_word(text: &[u8]) -> Option<(&[u8], &[u8])>
    ensures { MatchOption result (words text.now ≡ [])
        (λ parts. words text.now ≡ parts.0.now ∷ words parts.1.now) }
{
    for (i, b) in text.iter().enumerate() {
        if *b == b'#' {
            return None;
        }
        if !is_blank(*b) {
            return Some(front_word(&text[i..]));
        }
    }
    None
}

/// Whether a text has no word.
#[inline]
pub(crate) fn no_words(text: &[u8]) -> bool
    ensures { result ≡ (length (words text.now) == 0) }
{
    next_word(text).is_none()
}

/// The text behind the comma that is its first word.
fn behind_comma(text: &[u8]) -> Option<&[u8]>
    ensures { MatchOption result (behind_comma (words text.now) ≡ None)
        (λ rest. behind_comma (words text.now) ≡ Some (words rest.now)) }
{
    let (word, rest) = next_word(text)?;
    if word == b",".as_slice() {
        Some(rest)
    } else {
        None
    }
}

/// The word of a text that has one.
pub(crate) fn one_word(text: &[u8]) -> Option<&[u8]>
    ensures { MatchOption result (one_word (words text.now) ≡ None)
        (λ w. one_word (words text.now) ≡ Some w.now) }
{
    let (word, rest) = next_word(text)?;
    if no_words(rest) { Some(word) } else { None }
}

/// The words of a text that has two, with a comma between them.
pub(crate) fn two_words(text: &[u8]) -> Option<(&[u8], &[u8])>
    ensures { MatchOption result (two_words (words text.now) ≡ None)
        (λ w. two_words (words text.now) ≡ Some (w.0.now, w.1.now)) }
{
    let (word, rest) = next_word(text)?;
    let rest = behind_comma(rest)?;
    let other = one_word(rest)?;
    Some((word, other))
}

/// The words of a text that has three, with commas between them.
pub(crate) fn three_words(text: &[u8]) -> Option<(&[u8], &[u8], &[u8])>
    ensures { MatchOption result (three_words (words text.now) ≡ None)
        (λ w. three_words (words text.now) ≡ Some (w.0.now, w.1.now, w.2.now)) }
{
    let (word, rest) = next_word(text)?;
    let rest = behind_comma(rest)?;
    let (other, third) = two_words(rest)?;
    Some((word, other, third))
}
