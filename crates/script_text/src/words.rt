ghost use Rattle.std.specs.Prelude.{◌≡◌, ◌==◌, ◌++◌, ◌∷◌, [], length, MatchOption, false, true};
ghost use Rattle.std.specs.List.{list_any};
ghost use Rattle.script_text.specs.Words.{is_blank, words_of, begins_blank, ends_word};

/// Whether a byte divides words.
fn is_blank(b: u8) -> bool
    ensures { result ≡ is_blank b }
{
    b == b' ' || b == b'\t'
}

/// The text behind the blanks that it begins with.
fn behind_blanks(text: &[u8]) -> &[u8]
    ensures words { words_of result.now ≡ words_of text.now }
    ensures starts { begins_blank result.now ≡ false }
{
    for (i, b) in text.iter().enumerate() {
        if !is_blank(*b) {
            return &text[i..];
        }
    }
    &[]
}

/// The bytes before the first blank, and the text from there on.
fn up_to_blank(text: &[u8]) -> (&[u8], &[u8])
    ensures whole { text.now ≡ result.0.now ++ result.1.now }
    ensures word { list_any is_blank result.0.now ≡ false }
    ensures ends { ends_word result.1.now ≡ true }
{
    for (i, b) in text.iter().enumerate() {
        if is_blank(*b) {
            return (&text[..i], &text[i..]);
        }
    }
    (text, &[])
}

/// The first word of a text, and the text behind it.
pub(crate) fn next_word(text: &[u8]) -> Option<(&[u8], &[u8])>
    ensures { MatchOption result (words_of text.now ≡ [])
        (λ parts. words_of text.now ≡ parts.0.now ∷ words_of parts.1.now) }
{
    let text = behind_blanks(text);
    if text.is_empty() {
        return None;
    }
    Some(up_to_blank(text))
}

/// Whether a text has no word.
pub(crate) fn no_words(text: &[u8]) -> bool
    ensures { result ≡ (length (words_of text.now) == 0) }
{
    next_word(text).is_none()
}

/// The word of a text that has one.
pub(crate) fn one_word(text: &[u8]) -> Option<&[u8]>
    ensures { MatchOption result ((length (words_of text.now) == 1) ≡ false)
        (λ w. words_of text.now ≡ w.now ∷ []) }
{
    let (word, rest) = next_word(text)?;
    if no_words(rest) { Some(word) } else { None }
}

/// The words of a text that has two.
pub(crate) fn two_words(text: &[u8]) -> Option<(&[u8], &[u8])>
    ensures { MatchOption result ((length (words_of text.now) == 2) ≡ false)
        (λ w. words_of text.now ≡ w.0.now ∷ w.1.now ∷ []) }
{
    let (word, rest) = next_word(text)?;
    Some((word, one_word(rest)?))
}

/// The words of a text that has three.
pub(crate) fn three_words(text: &[u8]) -> Option<(&[u8], &[u8], &[u8])>
    ensures { MatchOption result ((length (words_of text.now) == 3) ≡ false)
        (λ w. words_of text.now ≡ w.0.now ∷ w.1.now ∷ w.2.now ∷ []) }
{
    let (word, rest) = next_word(text)?;
    let (other, third) = two_words(rest)?;
    Some((word, other, third))
}
