//! The delta of an image, read from front to back.

ghost use Rattle.std.specs.Prelude.{◌≡◌, ◌<◌, ◌≤◌, ◌^◌, ◌∷◌, [], length, IfOk};
ghost use Rattle.std.specs.Int.{w32, w64, to_le_bytes};
ghost use Rattle.sizes.specs.declared.TheConstants.{MOST_SPACE_PAGES};
ghost use Rattle.delta_image.specs.declared.encoding.TheConstants.{MAGIC};
ghost use Rattle.delta_image.specs.Image.{lines_part, page_part, pages_part, registers_part, state_part};
ghost use Rattle.delta_image.specs.Fine.{AreRegisters, Ascend, IsPlain, IsState, IsWord, are_perms};
ghost use Rattle.delta_image.specs.Decoding.{AreLinesOf, AreManyPages, Decodes, DecodesAlone, IsKind, IsPageFrom, Reads, is_number};
ghost use Rattle.delta_image.specs.Said.{SaysDelta};

use crate::delta::{Delta, DeltaPage};
use crate::delta_lines::DeltaLines;
use crate::delta_pages::DeltaPages;
use crate::encoding::{MAGIC, PAGE_HEAD_BYTES};
use crate::image_error::ImageError;
use bitflags::Flags;
use ovl_io::{FaultKind, Perms, ProcessState};
use rv_execute::Regs;
use sizes::{LINE_BYTES, MOST_SPACE_PAGES, PAGE_END};
use std::alloc::Global;

fn magic_at(bytes: &[u8]) -> Result<&[u8], ImageError>
    ensures { Reads (λ _. Unit {0}) (λ _. MAGIC) (λ rest. (tt {0}, rest.now)) bytes.now result }
{
    match bytes.strip_prefix(&MAGIC) {
        Some(rest) => Ok(rest),
        None => Err(ImageError::BadImage),
    }
}

fn byte_at(bytes: &[u8]) -> Result<(u8, &[u8]), ImageError>
    ensures { Reads (λ _. Unit {0}) (λ byte. byte ∷ []) (λ x. (x.0, x.1.now)) bytes.now result }
{
    match bytes {
        [byte, rest @ ..] => Ok((*byte, rest)),
        [] => Err(ImageError::BadImage),
    }
}

fn u32_at(bytes: &[u8]) -> Result<(u32, &[u8]), ImageError>
    ensures { Reads (λ n. n < 2 ^ 32) (to_le_bytes w32) (λ x. (x.0, x.1.now)) bytes.now result }
{
    match bytes.split_first_chunk::<4>() {
        Some((number, rest)) => Ok((u32::from_le_bytes(*number), rest)),
        None => Err(ImageError::BadImage),
    }
}

fn u64_at(bytes: &[u8]) -> Result<(u64, &[u8]), ImageError>
    ensures { Reads IsWord (to_le_bytes w64) (λ x. (x.0, x.1.now)) bytes.now result }
{
    match bytes.split_first_chunk::<8>() {
        Some((number, rest)) => Ok((u64::from_le_bytes(*number), rest)),
        None => Err(ImageError::BadImage),
    }
}

fn kind_of(code: u8) -> Option<FaultKind>
    ensures { IsKind code result }
{
    match code {
        0 => Some(FaultKind::Align),
        1 => Some(FaultKind::Fetch),
        2 => Some(FaultKind::Illegal),
        3 => Some(FaultKind::Load),
        4 => Some(FaultKind::Store),
        5 => Some(FaultKind::Break),
        _ => None,
    }
}

fn state_at(bytes: &[u8]) -> Result<(ProcessState, &[u8]), ImageError>
    ensures { Reads IsState state_part (λ x. (x.0, x.1.now)) bytes.now result }
{
    match bytes {
        [0, rest @ ..] => Ok((ProcessState::Running, rest)),
        [1, code, rest @ ..] => Ok((ProcessState::Exited(*code), rest)),
        [2, code, rest @ ..] => match kind_of(*code) {
            None => Err(ImageError::BadImage),
            Some(kind) => {
                let (address, rest) = u64_at(rest)?;
                Ok((ProcessState::Faulted(kind, address), rest))
            }
        },
        _ => Err(ImageError::BadImage),
    }
}

/// Sets the pc and x1 to x31, and answers the bytes behind them.
fn registers_at<'a>(regs: &mut Regs, bytes: &'a [u8]) -> Result<&'a [u8], ImageError>
    requires { AreRegisters regs.old }
    ensures { Reads AreRegisters registers_part (λ rest. (regs.new, rest.now)) bytes.now result }
{
    let (pc, behind) = u64_at(bytes)?;
    regs.set_pc(pc);
    let mut rest = behind;
    'registers: for i in 1..32u8 {
        let (word, after) = u64_at(rest)?;
        regs.set(i, word);
        rest = after;
    }
    Ok(rest)
}

/// The lines that a vector gives, one behind the other.
fn lines_at(alloc: Global, given: u64, bytes: &[u8]) -> Result<(DeltaLines, &[u8]), ImageError>
    ensures { Reads (AreLinesOf given) lines_part (λ x. (x.0, x.1.now)) bytes.now result }
{
    let count = given.count_ones() as usize;
    let mut lines = Vec::with_capacity(alloc, count.min(bytes.len() / LINE_BYTES))?;
    let mut rest = bytes;
    let mut left = given;
    'lines: while left != 0 {
        let line = left.trailing_zeros() as u8;
        match rest.split_first_chunk::<64>() {
            Some((text, after)) => {
                lines.push((line, *text))?;
                rest = after;
            }
            None => return Err(ImageError::BadImage),
        }
        left &= !(1u64 << line);
    }
    Ok((DeltaLines::new(lines), rest))
}

/// Whether a page may have this number, where those below `from` are passed.
fn is_number(from: u64, page: u64) -> bool
    ensures { result ≡ is_number from page }
{
    from <= page && page < PAGE_END
}

/// Whether W comes with R.
fn are_perms(perms: u8) -> bool
    ensures { result ≡ are_perms perms }
{
    perms < 2 || 3 < perms && perms < 8
}

/// A page whose number isn't below `from`.
fn page_at(alloc: Global, from: u64, bytes: &[u8]) -> Result<(DeltaPage, &[u8]), ImageError>
    ensures { Reads (IsPageFrom from) page_part (λ x. (x.0, x.1.now)) bytes.now result }
{
    let (number, rest) = u32_at(bytes)?;
    let (perms, rest) = byte_at(rest)?;
    let (given, rest) = u64_at(rest)?;
    let page = u64::from(number);
    if !is_number(from, page) {
        return Err(ImageError::BadImage);
    }
    if !are_perms(perms) {
        return Err(ImageError::BadImage);
    }
    let (lines, rest) = lines_at(alloc, given, rest)?;
    let perms = Perms::from_bits_retain(perms);
    Ok((DeltaPage { page, perms, lines }, rest))
}

/// So many pages, one behind the other.
fn pages_at(alloc: Global, count: u32, bytes: &[u8]) -> Result<(Vec<DeltaPage>, &[u8]), ImageError>
    ensures { Reads (AreManyPages count) pages_part (λ x. (x.0.items, x.1.now)) bytes.now result }
{
    let most = bytes.len() / PAGE_HEAD_BYTES;
    let mut pages = Vec::with_capacity(alloc, most.min(count as usize))?;
    let mut from = 0;
    let mut rest = bytes;
    'pages: for _ in 0..count {
        let (page, after) = page_at(alloc, from, rest)?;
        from = page.page + 1;
        pages.push(page)?;
        rest = after;
    }
    Ok((pages, rest))
}

fn image_at(alloc: Global, bytes: &[u8]) -> Result<Delta, ImageError>
    ensures { Decodes bytes.now result }
{
    let rest = magic_at(bytes)?;
    let (state, rest) = state_at(rest)?;
    let mut regs = Regs::new(0, 0);
    let rest = registers_at(&mut regs, rest)?;
    let (count, rest) = u32_at(rest)?;
    if MOST_SPACE_PAGES < count {
        return Err(ImageError::BadImage);
    }
    let (pages, rest) = pages_at(alloc, count, rest)?;
    if !rest.is_empty() {
        return Err(ImageError::BadImage);
    }
    let pages = DeltaPages::new(pages);
    Ok(Delta { state, regs, pages })
}

/// The delta that bytes are the image of. It may be encoded.
///
/// `BadImage` exactly where they are the image of none; `Memory` where there was none for what they say, which takes at most four bytes
/// for each of theirs.
pub fn decode(alloc: Global, bytes: &[u8]) -> Result<Delta, ImageError>
    ensures image { Decodes bytes.now result }
    ensures only { DecodesAlone bytes.now result }
    ensures few { IfOk result (λ d. length d.pages ≤ MOST_SPACE_PAGES) }
    ensures pages { IfOk result (λ d. Ascend IsPlain 0 d.pages) }
    ensures said { SaysDelta bytes.now result }
{
    image_at(alloc, bytes)
}
