//! What commands do to a process that is there: speculation, promotion, pages that are mapped or given up, and registers that are set.

ghost use Rattle.std.specs.Prelude.{◌≡◌, Some, true};
ghost use Rattle.std.specs.FinMap.{empty, get};
ghost use Rattle.space_maps.specs.Spaces.{space_in};
ghost use Rattle.machine_core.specs.Machine.{has_saved, has_space, is_marked, spaces_of};
ghost use Rattle.command_core.specs.Changes.{CanBeTold};
ghost use Rattle.command_core.specs.ProcessChanges.{ChangesProcess, IsFineChange, promotion_answer, set_register, speculation_answer};

use crate::mapping::{map_pages, unmap_pages};
use machine_core::{Machine, Process, SavedRegs};
use ovl_io::{Perms, ProcessState};
use promotion::{PromoteError, promote, promote_all};
use report_text::{Answer, Code};
use rv_execute::Regs;
use script_text::PC_NUMBER;
use sizes::PAGE_BYTES;
use speculation::{SpeculationError, commit, discard, start};

/// A change of a process that is there: of its speculation, its overlays, its pages or its registers.
#[derive(Clone, Copy, Debug)]
pub(crate) enum ProcessChange {
    /// A speculation begins.
    Speculate,
    /// It ends, and what was done stays.
    Commit,
    /// It ends, and everything is as at its start.
    Discard,
    /// The page of an address is promoted.
    Promote(u64),
    /// Each page is promoted.
    PromoteAll,
    /// So many zero pages are mapped from an address on, with these permissions.
    Map(u64, u32, Perms),
    /// So many pages are given up from an address on.
    Unmap(u64, u32),
    /// A register is set, by its number, or the pc.
    Set(u8, u64),
}

/// What is answered where a speculation doesn't begin or end.
fn not_speculated(error: SpeculationError) -> Answer
    ensures answer { result ≡ speculation_answer error }
    ensures told { CanBeTold result }
{
    match error {
        SpeculationError::Speculating => Answer::Refused(Code::Speculating),
        SpeculationError::NotSpeculating => Answer::Refused(Code::NotSpeculating),
        SpeculationError::Full(needed, limit) => Answer::Full(needed, limit),
    }
}

/// What is answered where pages aren't promoted: the page of an address, or all pages, of which none is missing.
fn not_promoted(error: PromoteError, address: u64) -> Answer
    ensures answer { result ≡ promotion_answer address error }
    ensures told { CanBeTold result }
{
    match error {
        PromoteError::Unmapped(_) => Answer::Refused(Code::Unmapped(address)),
        PromoteError::Speculating => Answer::Refused(Code::Speculating),
        PromoteError::Full(needed, limit) => Answer::Full(needed, limit),
    }
}

/// Begins a speculation of process `p`, which runs: its pages are settled, and its registers and its state are kept.
fn begin(machine: &mut Machine, p: u16, process: Process) -> Answer
    requires there { get machine.old.processes p ≡ Some process }
    requires space { has_space machine.old p ≡ true }
    requires none_awaits { (space_in (spaces_of machine.old) p).awaiting ≡ empty }
    requires runs { process.state ≡ ProcessState.Running }
    ensures done { ChangesProcess p ProcessChange.Speculate process machine.old result machine.new }
    ensures told { CanBeTold result }
{
    match start(machine.memory_mut(), p) {
        Ok(()) => {
            let saved = SavedRegs {
                regs: process.regs,
                state: process.state,
            };
            let left = Process {
                regs: process.regs,
                state: process.state,
                saved: Some(saved),
            };
            machine.set_process(p, left);
            Answer::Done
        }
        Err(error) => not_speculated(error),
    }
}

/// Begins a speculation of process `p`, where it runs.
fn speculate_process(machine: &mut Machine, p: u16, process: Process) -> Answer
    requires there { get machine.old.processes p ≡ Some process }
    requires space { has_space machine.old p ≡ true }
    requires none_awaits { (space_in (spaces_of machine.old) p).awaiting ≡ empty }
    ensures done { ChangesProcess p ProcessChange.Speculate process machine.old result machine.new }
    ensures told { CanBeTold result }
{
    let state = process.state;
    match state {
        ProcessState::Running => begin(machine, p, process),
        ProcessState::Exited(_) | ProcessState::Faulted(_, _) => Answer::Refused(Code::Ended),
    }
}

/// Ends the speculation of process `p`: what was done stays, and what was kept is forgotten.
fn commit_process(machine: &mut Machine, p: u16, process: Process) -> Answer
    requires there { get machine.old.processes p ≡ Some process }
    requires space { has_space machine.old p ≡ true }
    requires none_awaits { (space_in (spaces_of machine.old) p).awaiting ≡ empty }
    ensures done { ChangesProcess p ProcessChange.Commit process machine.old result machine.new }
    ensures told { CanBeTold result }
{
    match commit(machine.memory_mut(), p) {
        Ok(()) => {
            let forgotten = Process {
                regs: process.regs,
                state: process.state,
                saved: None,
            };
            machine.set_process(p, forgotten);
            Answer::Done
        }
        Err(error) => not_speculated(error),
    }
}

/// Ends the speculation of process `p`: its registers and its state are these, which were kept, and its memory is the one that was
/// kept.
fn go_back(machine: &mut Machine, p: u16, process: Process, saved: SavedRegs) -> Answer
    requires there { get machine.old.processes p ≡ Some process }
    requires space { has_space machine.old p ≡ true }
    requires saved { process.saved ≡ Some saved }
    ensures done { ChangesProcess p ProcessChange.Discard process machine.old result machine.new }
    ensures told { CanBeTold result }
{
    match discard(machine.memory_mut(), p) {
        Ok(()) => {
            let left = Process {
                regs: saved.regs,
                state: saved.state,
                saved: None,
            };
            machine.set_process(p, left);
            Answer::Done
        }
        Err(error) => not_speculated(error),
    }
}

/// Ends the speculation of process `p`, and goes back to where it began.
fn discard_process(machine: &mut Machine, p: u16, process: Process) -> Answer
    requires there { get machine.old.processes p ≡ Some process }
    requires space { has_space machine.old p ≡ true }
    requires kept { is_marked machine.old p ≡ has_saved machine.old p }
    ensures done { ChangesProcess p ProcessChange.Discard process machine.old result machine.new }
    ensures told { CanBeTold result }
{
    let kept = process.saved;
    match kept {
        Some(saved) => go_back(machine, p, process, saved),
        None => Answer::Refused(Code::NotSpeculating),
    }
}

/// Promotes the page of an address of process `p`.
fn promote_page(machine: &mut Machine, p: u16, process: Process, address: u64) -> Answer
    requires there { get machine.old.processes p ≡ Some process }
    requires space { has_space machine.old p ≡ true }
    requires none_awaits { (space_in (spaces_of machine.old) p).awaiting ≡ empty }
    ensures done { ChangesProcess p (ProcessChange.Promote address) process
        machine.old result machine.new }
    ensures told { CanBeTold result }
{
    match promote(machine.memory_mut(), p, address / PAGE_BYTES as u64) {
        Ok(()) => Answer::Done,
        Err(error) => not_promoted(error, address),
    }
}

/// Promotes each page of process `p`.
fn promote_pages(machine: &mut Machine, p: u16, process: Process) -> Answer
    requires there { get machine.old.processes p ≡ Some process }
    requires space { has_space machine.old p ≡ true }
    requires none_awaits { (space_in (spaces_of machine.old) p).awaiting ≡ empty }
    ensures done { ChangesProcess p ProcessChange.PromoteAll process machine.old result machine.new }
    ensures told { CanBeTold result }
{
    match promote_all(machine.memory_mut(), p) {
        Ok(()) => Answer::Done,
        Err(error) => not_promoted(error, 0),
    }
}

/// Registers of which one has another value, or the pc has.
fn with_value(regs: Regs, register: u8, value: u64) -> Regs
    ensures { result ≡ set_register register value regs }
{
    let mut regs = regs;
    if register < PC_NUMBER {
        regs.set(register, value);
    } else {
        regs.set_pc(value);
    }
    regs
}

/// Sets a register of process `p`, or its pc, whatever its state is. What is kept of it stays.
fn put_register(machine: &mut Machine, p: u16, process: Process, register: u8, value: u64) -> Answer
    requires there { get machine.old.processes p ≡ Some process }
    ensures done { ChangesProcess p (ProcessChange.Set register value) process
        machine.old result machine.new }
    ensures told { CanBeTold result }
{
    let left = Process {
        regs: with_value(process.regs, register, value),
        state: process.state,
        saved: process.saved,
    };
    machine.set_process(p, left);
    Answer::Done
}

/// Does a change to process `p`, which is there with its space, of which no page awaits, and of which registers and state are kept
/// exactly where it is speculating. Takes memory for pages that are mapped, and else none.
pub(crate) fn change_process(
    machine: &mut Machine,
    p: u16,
    process: Process,
    change: ProcessChange,
) -> Answer
    requires there { get machine.old.processes p ≡ Some process }
    requires space { has_space machine.old p ≡ true }
    requires none_awaits { (space_in (spaces_of machine.old) p).awaiting ≡ empty }
    requires kept { is_marked machine.old p ≡ has_saved machine.old p }
    requires fine { IsFineChange change }
    ensures done { ChangesProcess p change process machine.old result machine.new }
    ensures told { CanBeTold result }
{
    match change {
        ProcessChange::Speculate => speculate_process(machine, p, process),
        ProcessChange::Commit => commit_process(machine, p, process),
        ProcessChange::Discard => discard_process(machine, p, process),
        ProcessChange::Promote(address) => promote_page(machine, p, process, address),
        ProcessChange::PromoteAll => promote_pages(machine, p, process),
        ProcessChange::Map(address, n, perms) => map_pages(machine, p, process, address, n, perms),
        ProcessChange::Unmap(address, n) => unmap_pages(machine, p, process, address, n),
        ProcessChange::Set(register, value) => put_register(machine, p, process, register, value),
    }
}
