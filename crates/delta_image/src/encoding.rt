//! The image of a delta, and its length.

ghost use Rattle.std.specs.Prelude.{◌≡◌, ◌+◌, ◌*◌, ◌≤◌, ◌^◌, ◌++◌, length, IfOk, OnOk};
ghost use Rattle.std.specs.List.{AllByRecursion};
ghost use Rattle.sizes.specs.declared.TheConstants.{LINE_BYTES, MOST_SPACE_PAGES, PAGE_LINES};
ghost use Rattle.overlay_bits.specs.Kept.{word_of};
ghost use Rattle.overlay_bits.specs.Lines.{Rise};
ghost use Rattle.delta_image.specs.declared.delta.Delta.{Delta};
ghost use Rattle.delta_image.specs.declared.encoding.TheConstants.{PAGE_HEAD_BYTES};
ghost use Rattle.delta_image.specs.Line.{IsLine, numbers_of};
ghost use Rattle.delta_image.specs.Image.{head_part, image_of, kind_code, lines_part, page_part, pages_part, registers_part, state_part, words_part};
ghost use Rattle.delta_image.specs.Fine.{AreRegisters, Ascend, HasLines, IsImageOf, IsPlain, IsState, IsWord};

use crate::delta::{Delta, DeltaPage};
use bitflags::Flags;
use ovl_io::{FaultKind, ProcessState};
use rv_execute::Regs;
use sizes::LINE_BYTES;
use std::alloc::{AllocError, Global};

/// What an image begins with: OVL1.
pub const MAGIC: [u8; 4] = [0x4F, 0x56, 0x4C, 0x31];

/// Bytes of a page without its lines: its number, its permissions, and a bit for each line.
pub const PAGE_HEAD_BYTES: usize = 4 + 1 + 8;

fn kind_code(kind: FaultKind) -> u8
    ensures { result ≡ kind_code kind }
{
    match kind {
        FaultKind::Align => 0,
        FaultKind::Fetch => 1,
        FaultKind::Illegal => 2,
        FaultKind::Load => 3,
        FaultKind::Store => 4,
        FaultKind::Break => 5,
    }
}

fn put_state(out: &mut Vec<u8>, state: ProcessState) -> Result<(), AllocError>
    ensures fine { IsState state }
    ensures bytes { OnOk result (out.new.items ≡ out.old.items ++ state_part state) }
{
    match state {
        ProcessState::Running => out.extend_from_slice(&[0]),
        ProcessState::Exited(code) => out.extend_from_slice(&[1, code]),
        ProcessState::Faulted(kind, address) => {
            out.extend_from_slice(&[2, kind_code(kind)])?;
            out.extend_from_slice(&address.to_le_bytes())
        }
    }
}

fn put_words(out: &mut Vec<u8>, words: &[u64]) -> Result<(), AllocError>
    ensures words { AllByRecursion IsWord words.now }
    ensures bytes { OnOk result (out.new.items ≡ out.old.items ++ words_part words.now) }
{
    'words: for word in words {
        out.extend_from_slice(&word.to_le_bytes())?;
    }
    Ok(())
}

fn put_registers(out: &mut Vec<u8>, regs: &Regs) -> Result<(), AllocError>
    ensures fine { OnOk result (AreRegisters regs.now) }
    ensures bytes { OnOk result (out.new.items ≡ out.old.items ++ registers_part regs.now) }
{
    out.extend_from_slice(&regs.pc().to_le_bytes())?;
    put_words(out, &regs.x()[1..])
}

/// A bit for each line.
fn vector_of(lines: &[(u8, [u8; 64])]) -> u64
    requires { Rise 0 (numbers_of lines.now) PAGE_LINES }
    ensures { result ≡ word_of (numbers_of lines.now) }
{
    let mut vector = 0;
    'lines: for (line, _) in lines {
        vector += 1u64 << *line;
    }
    vector
}

fn put_head(out: &mut Vec<u8>, page: &DeltaPage) -> Result<(), AllocError>
    requires { IsPlain page.now }
    ensures { OnOk result (out.new.items ≡ out.old.items ++ head_part page.now) }
{
    let vector = vector_of(page.lines.as_slice());
    out.extend_from_slice(&(page.page as u32).to_le_bytes())?;
    out.push(page.perms.bits())?;
    out.extend_from_slice(&vector.to_le_bytes())?;
    Ok(())
}

fn put_lines(out: &mut Vec<u8>, lines: &[(u8, [u8; 64])]) -> Result<(), AllocError>
    ensures { OnOk result (out.new.items ≡ out.old.items ++ lines_part lines.now) }
{
    'lines: for (_, bytes) in lines {
        out.extend_from_slice(bytes)?;
    }
    Ok(())
}

fn put_page(out: &mut Vec<u8>, page: &DeltaPage) -> Result<(), AllocError>
    requires { IsPlain page.now }
    ensures { OnOk result (out.new.items ≡ out.old.items ++ page_part page.now) }
{
    put_head(out, page)?;
    put_lines(out, page.lines.as_slice())
}

fn put_pages(out: &mut Vec<u8>, pages: &[DeltaPage]) -> Result<(), AllocError>
    requires { Ascend IsPlain 0 pages.now }
    ensures { OnOk result (out.new.items ≡ out.old.items ++ pages_part pages.now) }
{
    'pages: for page in pages {
        put_page(out, page)?;
    }
    Ok(())
}

fn state_length(state: ProcessState) -> usize
    ensures length { result ≡ length (state_part state) }
    ensures small { result ≤ 10 }
{
    match state {
        ProcessState::Running => 1,
        ProcessState::Exited(_) => 2,
        ProcessState::Faulted(_, _) => 10,
    }
}

fn registers_length(regs: &Regs) -> usize
    ensures length { result ≡ length (registers_part regs.now) }
    ensures small { result ≤ 256 }
{
    8 * regs.x().len()
}

fn line_length(line: &[u8; 64]) -> usize
    ensures length { result ≡ length line.now }
    ensures whole { result ≡ LINE_BYTES }
{
    line.len()
}

/// How many bytes lines have.
fn lines_length(lines: &[(u8, [u8; 64])]) -> usize
    requires { length lines.now ≤ PAGE_LINES }
    ensures length { result ≡ length (lines_part lines.now) }
    ensures whole { AllByRecursion IsLine lines.now }
{
    let mut length = 0;
    'lines: for (_, bytes) in lines {
        length += line_length(bytes);
    }
    length
}

fn page_length(page: &DeltaPage) -> usize
    requires { IsPlain page.now }
    ensures length { result ≡ length (page_part page.now) }
    ensures whole { HasLines page.now }
{
    PAGE_HEAD_BYTES + lines_length(page.lines.as_slice())
}

fn pages_length(pages: &[DeltaPage]) -> usize
    requires few { length pages.now ≤ MOST_SPACE_PAGES }
    requires pages { Ascend IsPlain 0 pages.now }
    ensures length { result ≡ length (pages_part pages.now) }
    ensures small { result ≤ 2 ^ 32 }
    ensures whole { AllByRecursion HasLines pages.now }
{
    let mut length = 0;
    'pages: for page in pages {
        length += page_length(page);
    }
    length
}

/// How many bytes the image of a delta has, without making it. The delta is as for `encode`.
pub fn length_of(d: &Delta) -> usize
    requires few { length d.now.pages ≤ MOST_SPACE_PAGES }
    requires pages { Ascend IsPlain 0 d.now.pages }
    ensures length { result ≡ length (image_of d.now) }
    ensures whole { AllByRecursion HasLines d.now.pages }
{
    let parts = state_length(d.state) + registers_length(&d.regs);
    MAGIC.len() + parts + 4 + pages_length(d.pages.as_slice())
}

/// How many bytes the image of a delta has, by its state, its registers, and how many pages and lines it has in all.
pub fn length_by(state: ProcessState, regs: &Regs, pages: u32, lines: u64) -> u64
    requires few { lines ≤ 2 ^ 32 }
    ensures length { result ≡ length (state_part state) + length (registers_part regs.now) + 8
        + PAGE_HEAD_BYTES * pages + LINE_BYTES * lines }
    ensures small { result ≤ 274 + PAGE_HEAD_BYTES * pages + LINE_BYTES * lines }
{
    let parts = state_length(state) + registers_length(regs);
    let pages = PAGE_HEAD_BYTES as u64 * u64::from(pages);
    (MAGIC.len() + parts + 4) as u64 + pages + LINE_BYTES as u64 * lines
}

/// The image of a delta. It has at most 131,072 pages, which ascend strictly and are below 2^26; in the permissions of each W comes with
/// R, and its lines ascend strictly and are below 64.
///
/// An error says that there was no memory for the image.
pub fn encode(alloc: Global, d: &Delta) -> Result<Vec<u8>, AllocError>
    requires few { length d.now.pages ≤ MOST_SPACE_PAGES }
    requires pages { Ascend IsPlain 0 d.now.pages }
    ensures image { IfOk result (λ image. IsImageOf image.items d.now) }
    ensures only { IfOk result (λ image. (other : Delta) → IsImageOf image.items other → other ≡ d.now) }
{
    let pages = d.pages.as_slice();
    let mut out = Vec::with_capacity(alloc, length_of(d))?;
    out.extend_from_slice(&MAGIC)?;
    put_state(&mut out, d.state)?;
    put_registers(&mut out, &d.regs)?;
    out.extend_from_slice(&(pages.len() as u32).to_le_bytes())?;
    put_pages(&mut out, pages)?;
    Ok(out)
}
