ghost use Rattle.std.specs.Prelude.{◌≡◌, ◌<◌, ◌==◌, ◌++◌, ◌∷◌, length, MatchOption, false};
ghost use Rattle.std.specs.List.{list_any};
ghost use Rattle.script_text.specs.Lines.{script_lines, line_count, without_return};

/// What stands before the first byte of that value, and what stands behind it.
fn cut(bytes: &[u8], at: u8) -> Option<(&[u8], &[u8])>
    ensures { MatchOption result (list_any (λ b. b == at) bytes.now ≡ false)
        (λ parts. (bytes.now ≡ parts.0.now ++ at ∷ parts.1.now) × (list_any (λ b. b == at) parts.0.now ≡ false)) }
{
    for (i, b) in bytes.iter().enumerate() {
        if *b == at {
            return Some((&bytes[..i], &bytes[i + 1..]));
        }
    }
    None
}

/// The first line without its end, and the bytes behind its end.
pub(crate) fn first_line(bytes: &[u8]) -> (&[u8], &[u8])
    requires { 0 < length bytes.now }
    ensures lines { script_lines bytes.now ≡ result.0.now ∷ script_lines result.1.now }
    ensures shorter { length result.1.now < length bytes.now }
{
    match cut(bytes, b'\n') {
        Some(parts) => parts,
        None => (bytes, &[]),
    }
}

/// How many lines a script has. Blank lines and comments count, and so does a last line without its end.
pub fn line_count(bytes: &[u8]) -> usize
    ensures { result ≡ line_count bytes.now }
{
    let mut count = 0;
    let mut rest = bytes;
    'counting: while !rest.is_empty() {
        rest = first_line(rest).1;
        count += 1;
    }
    count
}

/// A line without the byte 0D directly before its end.
pub(crate) fn without_return(line: &[u8]) -> &[u8]
    ensures { result.now ≡ without_return line.now }
{
    let n = line.len();
    if n == 0 {
        return line;
    }
    if line[n - 1] == b'\r' {
        &line[..n - 1]
    } else {
        line
    }
}
