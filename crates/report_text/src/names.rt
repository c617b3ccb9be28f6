ghost use Rattle.std.specs.Prelude.{◌≡◌, ◌+◌, ◌==◌, ◌||◌, ◌≤◌, ◌++◌, [], codes, length, IsTrue, if◌then◌else◌};
ghost use Rattle.arrayvec.specs.ArrayVec.{array_vec_len};
ghost use Rattle.report_text.specs.Digits.{in_decimal};
ghost use Rattle.report_text.specs.Names.{kind_text, elf_text, code_text, stop_word};
ghost use Rattle.report_text.specs.Texts.{bare_state_text, state_text, pages_text};
ghost use Rattle.report_text.specs.Answers.{HasElfLine, HasCodeLine};

use crate::push::{push_address, push_decimal, push_text};
use crate::{Code, LINE_ROOM, Line, Stop};
use elf_loader::ElfError;
use ovl_io::{FaultKind, ProcessState};

pub(crate) fn kind_text(kind: FaultKind) -> &'static [u8]
    ensures text { result.now ≡ kind_text kind }
    ensures short { length result.now ≤ 32 }
{
    match kind {
        FaultKind::Align => b"align",
        FaultKind::Fetch => b"fetch",
        FaultKind::Illegal => b"illegal",
        FaultKind::Load => b"load",
        FaultKind::Store => b"store",
        FaultKind::Break => b"break",
    }
}

/// The code and the name of a file's refusal.
fn elf_text(error: ElfError) -> &'static [u8]
    requires { HasElfLine error }
    ensures text { result.now ≡ elf_text error }
    ensures short { length result.now ≤ 32 }
{
    match error {
        ElfError::TooShort => b"E1 too-short",
        ElfError::BadMagic => b"E2 bad-magic",
        ElfError::NotClass64 => b"E3 not-class-64",
        ElfError::NotLittle => b"E4 not-little",
        ElfError::BadVersion => b"E5 bad-version",
        ElfError::NotExec => b"E6 not-exec",
        ElfError::NotRiscv => b"E7 not-riscv",
        ElfError::BadEntrySize => b"E8 bad-entry-size",
        ElfError::TableOutside => b"E9 table-outside",
        ElfError::NeedsInterpreter => b"E10 needs-interpreter",
        ElfError::FileLarger => b"E11 file-larger",
        ElfError::SegmentOutside => b"E12 segment-outside",
        ElfError::AddressOutside => b"E13 address-outside",
        ElfError::NothingToLoad => b"E14 nothing-to-load",
        ElfError::TooManyPages => b"E15 too-many-pages",
        ElfError::Memory => unreachable!(),
    }
}

/// A name, and a number behind it.
fn push_numbered(line: &mut Line, name: &[u8], k: u32)
    requires short { length name.now ≤ 32 }
    requires room { array_vec_len line.old + 64 ≤ LINE_ROOM }
    ensures text { line.new.items ≡ line.old.items ++ (name.now ++ in_decimal k) }
    ensures len { array_vec_len line.new ≤ array_vec_len line.old + 64 }
{
    push_text(line, name);
    push_decimal(line, u64::from(k));
}

/// The code and the name of a refusal, and the address or the number of one that has it.
pub(crate) fn push_code(line: &mut Line, code: Code)
    requires has { HasCodeLine code }
    requires room { array_vec_len line.old + 64 ≤ LINE_ROOM }
    ensures text { line.new.items ≡ line.old.items ++ code_text code }
    ensures len { array_vec_len line.new ≤ array_vec_len line.old + 64 }
{
    match code {
        Code::NoProcess => push_text(line, b"C1 no-process"),
        Code::Ended => push_text(line, b"C2 ended"),
        Code::Speculating => push_text(line, b"C3 speculating"),
        Code::NotSpeculating => push_text(line, b"C4 not-speculating"),
        Code::NoCheckpoint => push_text(line, b"C5 no-checkpoint"),
        Code::NameTaken => push_text(line, b"C6 name-taken"),
        Code::Unmapped(address) => {
            push_text(line, b"C7 unmapped ");
            push_address(line, address);
        }
        Code::Mapped(address) => {
            push_text(line, b"C8 mapped ");
            push_address(line, address);
        }
        Code::NumbersUsed => push_text(line, b"C9 numbers-used"),
        Code::Outside => push_text(line, b"C10 outside"),
        Code::Forbidden(address) => {
            push_text(line, b"C11 forbidden ");
            push_address(line, address);
        }
        Code::NotAlone => push_text(line, b"C12 not-alone"),
        Code::FrameHere => push_text(line, b"C13 frame-here"),
        Code::NotAlike(n) => push_numbered(line, b"C14 not-alike ", n),
        Code::TooLarge(n) => push_numbered(line, b"C15 too-large ", n),
        Code::Elf(error) => push_text(line, elf_text(error)),
        Code::ImageLine(k) => push_numbered(line, b"I1 bad-line ", k),
        Code::BadImage => push_text(line, b"I2 bad-image"),
        Code::AsmLine(k) => push_numbered(line, b"A1 bad-line ", k),
        Code::AsmTwice(k) => push_numbered(line, b"A2 twice ", k),
        Code::AsmNoLabel(k) => push_numbered(line, b"A3 no-label ", k),
        Code::AsmOutOfReach(k) => push_numbered(line, b"A4 out-of-reach ", k),
        Code::AsmEmpty => push_text(line, b"A5 empty"),
        Code::AsmTooMany => push_text(line, b"A6 too-many"),
    }
}

/// Why turns ended.
pub(crate) fn stop_word(stop: &Stop) -> &'static [u8]
    ensures text { result.now ≡ stop_word stop.now }
    ensures short { length result.now ≤ 32 }
{
    match stop {
        Stop::Limit => b"limit",
        Stop::Idle => b"idle",
        Stop::Ended => b"ended",
        Stop::Break(_, _) => b"break",
        Stop::Full => b"full",
    }
}

/// Where what a process writes to a port goes.
pub(crate) fn port_text(port: u8) -> &'static [u8]
    requires { IsTrue (port == 1 || port == 2) }
    ensures text { result.now ≡ (if port == 1 then codes "out " else codes "err ") }
    ensures short { length result.now ≤ 32 }
{
    if port == 1 {
        b"out "
    } else if port == 2 {
        b"err "
    } else {
        unreachable!()
    }
}

/// A process's state by itself.
fn push_bare_state(line: &mut Line, state: &ProcessState)
    requires { array_vec_len line.old + 64 ≤ LINE_ROOM }
    ensures text { line.new.items ≡ line.old.items ++ bare_state_text state.now }
    ensures len { array_vec_len line.new ≤ array_vec_len line.old + 64 }
{
    match state {
        ProcessState::Running => push_text(line, b"running"),
        ProcessState::Exited(code) => {
            push_text(line, b"exited ");
            push_decimal(line, u64::from(*code));
        }
        ProcessState::Faulted(kind, address) => {
            push_text(line, b"faulted ");
            push_text(line, kind_text(*kind));
            push_text(line, b" ");
            push_address(line, *address);
        }
    }
}

/// Whether a process is speculating.
fn speculating_text(speculating: bool) -> &'static [u8]
    ensures text { result.now ≡ (if speculating then codes " speculating" else []) }
    ensures short { length result.now ≤ 32 }
{
    if speculating { b" speculating" } else { b"" }
}

/// A process's state, and whether it is speculating.
pub(crate) fn push_state(line: &mut Line, state: &ProcessState, speculating: bool)
    requires { array_vec_len line.old + 96 ≤ LINE_ROOM }
    ensures text { line.new.items ≡ line.old.items ++ state_text state.now speculating }
    ensures len { array_vec_len line.new ≤ array_vec_len line.old + 96 }
{
    push_bare_state(line, state);
    push_text(line, speculating_text(speculating));
}

/// How many pages there are.
pub(crate) fn push_pages(line: &mut Line, pages: u32)
    requires { array_vec_len line.old + 32 ≤ LINE_ROOM }
    ensures text { line.new.items ≡ line.old.items ++ pages_text pages }
    ensures len { array_vec_len line.new ≤ array_vec_len line.old + 32 }
{
    push_text(line, b" pages ");
    push_decimal(line, u64::from(pages));
}
