//! Pages of a process that are put on the frames of another one's pages.

ghost use Rattle.std.specs.Prelude.{◌≡◌, IfSome, is_some};
ghost use Rattle.std.specs.FinMap.{get};
ghost use Rattle.machine_core.specs.Machine.{processes_of};
ghost use Rattle.report_text.specs.Answers.{HasAnswerLine, HasCodeLine};
ghost use Rattle.command_core.specs.Deduplication.{MachineComesTo, dedup_all_row, dedup_code, dedup_row, pair_refusals};
ghost use Rattle.command_core.specs.Rows.{first_refusal};
ghost use Rattle.process_runs.specs.Places.{NoPageAwaits, OwnSpaces};

use machine_core::Machine;
use page_dedup::{DedupError, deduplicate, deduplicate_all};
use report_text::{Answer, Code};
use sizes::PAGE_BYTES;

/// Whether a process is there.
fn has_process(machine: &Machine, p: u16) -> bool
    ensures { result ≡ is_some (get machine.now.processes p) }
{
    match machine.process(p) {
        Some(_) => true,
        None => false,
    }
}

/// Why no page of process `p` is put on one of process `q`: one of them isn't there, or is speculating.
fn pair_refusal(machine: &Machine, p: u16, q: u16) -> Option<Code>
    ensures first { result ≡ first_refusal
        (pair_refusals (get (processes_of machine.now) p) (get (processes_of machine.now) q)) }
    ensures told { IfSome result (λ code. HasCodeLine code) }
{
    if !has_process(machine, p) {
        return Some(Code::NoProcess);
    }
    if !has_process(machine, q) {
        return Some(Code::NoProcess);
    }
    if machine.memory().is_speculating(p) {
        return Some(Code::Speculating);
    }
    if machine.memory().is_speculating(q) {
        return Some(Code::Speculating);
    }
    None
}

/// What is answered where a page isn't put on another one.
fn not_shared(error: DedupError) -> Answer
    ensures answer { result ≡ Answer.Refused (dedup_code error) }
    ensures told { HasAnswerLine result }
{
    match error {
        DedupError::NotAlone => Answer::Refused(Code::NotAlone),
        DedupError::FrameHere => Answer::Refused(Code::FrameHere),
        DedupError::NotAlike(lines) => Answer::Refused(Code::NotAlike(lines)),
    }
}

/// Puts the page of an address of process `p` on that of an address of process `q`. Takes no memory, and no units.
pub(crate) fn dedup_page(machine: &mut Machine, p: u16, address: u64, q: u16, other: u64) -> Answer
    requires own { OwnSpaces machine.old }
    requires none_awaits { NoPageAwaits machine.old }
    ensures done { MachineComesTo (dedup_row p address q other) machine.old result machine.new }
    ensures told { HasAnswerLine result }
{
    match pair_refusal(machine, p, q) {
        Some(code) => return Answer::Refused(code),
        None => {}
    }
    if !machine.memory().has_page(p, address / PAGE_BYTES as u64) {
        return Answer::Refused(Code::Unmapped(address));
    }
    if !machine.memory().has_page(q, other / PAGE_BYTES as u64) {
        return Answer::Refused(Code::Unmapped(other));
    }
    let page = address / PAGE_BYTES as u64;
    match deduplicate(machine.memory_mut(), p, page, q, other / PAGE_BYTES as u64) {
        Ok(()) => Answer::Shared(1),
        Err(error) => not_shared(error),
    }
}

/// Puts each page of process `p` that process `q` has too on the page of the same number there, where that can be. Takes no memory, and
/// no units.
pub(crate) fn dedup_pages(machine: &mut Machine, p: u16, q: u16) -> Answer
    requires own { OwnSpaces machine.old }
    requires none_awaits { NoPageAwaits machine.old }
    ensures done { MachineComesTo (dedup_all_row p q) machine.old result machine.new }
    ensures told { HasAnswerLine result }
{
    match pair_refusal(machine, p, q) {
        Some(code) => return Answer::Refused(code),
        None => {}
    }
    Answer::Shared(deduplicate_all(machine.memory_mut(), p, q))
}
