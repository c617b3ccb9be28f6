//! What the three requests do to a process.

ghost use Rattle.std.specs.Prelude.{◌≡◌, ℕ, List, None, Some, true};
ghost use Rattle.std.specs.FinMap.{empty, get};
ghost use Rattle.space_maps.specs.Spaces.{space_in};
ghost use Rattle.machine_core.specs.Machine.{has_saved, has_space, is_marked, is_running, spaces_of, wholes};
ghost use Rattle.machine_core.specs.BareTurns.{turn_with};
ghost use Rattle.self_speculation.specs.Called.{not_done, row_of};
ghost use Rattle.self_speculation.specs.Requests.{AnswersCall, DoesCall, DoesRow, FindsCall, IsFullRow, WereAtRequest, guest_at_request, turn_of_answer, whole_at};

use crate::{ECALL, NOT_DONE};
use machine_core::{BareTurn, Machine, Process, SavedRegs};
use process_calls::{ProcessCall, call_at, gone_on, kept};
use rv_execute::Regs;
use speculation::{SpeculationError, commit, discard, start};

/// What comes of a request of a process's own speculation.
#[derive(Clone, Copy, Debug)]
pub(crate) enum CallAnswer {
    /// the process goes on
    GoesOn,
    /// the units that would be needed exceed the limit, which is the second number
    Full(u32, u32),
}

impl CallAnswer {
    /// What came of the turn, which wrote nothing.
    pub(crate) fn turn(self) -> BareTurn
        ensures { (bytes : List ℕ) → turn_with result bytes ≡ turn_of_answer self }
    {
        match self {
            CallAnswer::GoesOn => BareTurn::Stepped,
            CallAnswer::Full(needed, limit) => BareTurn::Full(needed, limit),
        }
    }
}

/// The registers of a process at its request, whose execution led the pc behind it.
fn registers_at(machine: &Machine, p: u16, behind: &Regs) -> Regs
    requires space { has_space machine.now p ≡ true }
    ensures at { WereAtRequest machine.now p behind.now result }
{
    // it is asked for what it says of all pages: that they lie low
    let _overlaid = machine.memory().next_overlaid(p, 0);
    let mut at = *behind;
    at.set_pc(behind.pc().wrapping_sub(4));
    at
}

/// Answers a request of process `p` that isn't done.
fn refuse(machine: &mut Machine, p: u16, process: Process, at: Regs) -> CallAnswer
    requires there { get machine.old.processes p ≡ Some process }
    ensures does { DoesRow p (not_done (whole_at machine.old p process at))
        (guest_at_request machine.old p process at) machine.old (turn_of_answer result) machine.new }
{
    let left = Process {
        regs: gone_on(&at, NOT_DONE),
        state: process.state,
        saved: process.saved,
    };
    machine.set_process(p, left);
    CallAnswer::GoesOn
}

/// Process `p` goes on with the registers that it had at its request, since there aren't units enough.
fn wait(
    machine: &mut Machine,
    p: u16,
    process: Process,
    at: Regs,
    needed: u32,
    limit: u32,
) -> CallAnswer
    requires there { get machine.old.processes p ≡ Some process }
    ensures waits { IsFullRow needed limit (row_of p ProcessCall.Speculate (whole_at machine.old p process at))
        (guest_at_request machine.old p process at)
        → DoesCall p ProcessCall.Speculate process at machine.old (turn_of_answer result) machine.new }
{
    let left = Process {
        regs: at,
        state: process.state,
        saved: process.saved,
    };
    machine.set_process(p, left);
    CallAnswer::Full(needed, limit)
}

/// Begins a speculation of process `p`, of which nothing is kept: its pages are settled, and what it goes on with after a discard is kept.
fn begin(machine: &mut Machine, p: u16, process: Process, at: Regs) -> CallAnswer
    requires there { get machine.old.processes p ≡ Some process }
    requires space { has_space machine.old p ≡ true }
    requires none_awaits { (space_in (spaces_of machine.old) p).awaiting ≡ empty }
    requires kept { is_marked machine.old p ≡ has_saved machine.old p }
    requires nothing { process.saved ≡ None }
    ensures does { DoesCall p ProcessCall.Speculate process at machine.old (turn_of_answer result) machine.new }
{
    match start(machine.memory_mut(), p) {
        Ok(()) => {
            let saved = SavedRegs {
                regs: kept(&at),
                state: process.state,
            };
            let left = Process {
                regs: gone_on(&at, 0),
                state: process.state,
                saved: Some(saved),
            };
            machine.set_process(p, left);
            CallAnswer::GoesOn
        }
        Err(SpeculationError::Full(needed, limit)) => wait(machine, p, process, at, needed, limit),
        Err(SpeculationError::Speculating) | Err(SpeculationError::NotSpeculating) => {
            refuse(machine, p, process, at)
        }
    }
}

/// Ends the speculation of process `p`: what was done stays, and what was kept is forgotten.
fn commit_process(machine: &mut Machine, p: u16, process: Process, at: Regs) -> CallAnswer
    requires there { get machine.old.processes p ≡ Some process }
    requires space { has_space machine.old p ≡ true }
    requires none_awaits { (space_in (spaces_of machine.old) p).awaiting ≡ empty }
    requires kept { is_marked machine.old p ≡ has_saved machine.old p }
    ensures does { DoesCall p ProcessCall.Commit process at machine.old (turn_of_answer result) machine.new }
{
    match commit(machine.memory_mut(), p) {
        Ok(()) => {
            let left = Process {
                regs: gone_on(&at, 0),
                state: process.state,
                saved: None,
            };
            machine.set_process(p, left);
            CallAnswer::GoesOn
        }
        Err(_) => refuse(machine, p, process, at),
    }
}

/// Ends the speculation of process `p`, and goes back to where it began, with the registers and the state that were kept.
fn go_back(
    machine: &mut Machine,
    p: u16,
    process: Process,
    at: Regs,
    saved: SavedRegs,
) -> CallAnswer
    requires there { get machine.old.processes p ≡ Some process }
    requires space { has_space machine.old p ≡ true }
    requires kept { is_marked machine.old p ≡ has_saved machine.old p }
    requires saved { process.saved ≡ Some saved }
    ensures does { DoesCall p ProcessCall.Discard process at machine.old (turn_of_answer result) machine.new }
{
    match discard(machine.memory_mut(), p) {
        Ok(()) => {
            machine.set_process(p, saved.process());
            CallAnswer::GoesOn
        }
        Err(_) => refuse(machine, p, process, at),
    }
}

/// Does a request of process `p`, which runs and is there with its space, of which no page awaits, and of which registers and state are kept
/// exactly where it is speculating. `at` are its registers at the request. Takes no memory. Costs what the command of the same name
/// costs.
fn do_call(
    machine: &mut Machine,
    p: u16,
    process: Process,
    at: Regs,
    call: ProcessCall,
) -> CallAnswer
    requires there { get machine.old.processes p ≡ Some process }
    requires space { has_space machine.old p ≡ true }
    requires none_awaits { (space_in (spaces_of machine.old) p).awaiting ≡ empty }
    requires kept { is_marked machine.old p ≡ has_saved machine.old p }
    ensures does { DoesCall p call process at machine.old (turn_of_answer result) machine.new }
{
    let saved = process.saved;
    match call {
        ProcessCall::Speculate => match saved {
            None => begin(machine, p, process, at),
            Some(_) => refuse(machine, p, process, at),
        },
        ProcessCall::Commit => commit_process(machine, p, process, at),
        ProcessCall::Discard => match saved {
            None => refuse(machine, p, process, at),
            Some(saved) => go_back(machine, p, process, at, saved),
        },
    }
}

/// The request of its own speculation that process `p` asked for, whose execution led the pc behind an ECALL, with the registers at that. None where it
/// may not speculate by itself, and where it asked for something else.
pub(crate) fn find_call(machine: &Machine, p: u16, calls: bool) -> Option<(Regs, ProcessCall)>
    requires runs { is_running (wholes machine.now) p ≡ true }
    requires space { has_space machine.now p ≡ true }
    ensures { FindsCall p calls machine.now result }
{
    if !calls {
        return None;
    }
    match machine.process(p) {
        Some(process) => {
            let at = registers_at(machine, p, &process.regs);
            match call_at(&at, ECALL) {
                Some(call) => Some((at, call)),
                None => None,
            }
        }
        None => unreachable!(),
    }
}

/// Does a request that process `p` made with these registers.
pub(crate) fn answer_call(machine: &mut Machine, p: u16, at: Regs, call: ProcessCall) -> CallAnswer
    requires runs { is_running (wholes machine.old) p ≡ true }
    requires space { has_space machine.old p ≡ true }
    requires none_awaits { (space_in (spaces_of machine.old) p).awaiting ≡ empty }
    requires kept { is_marked machine.old p ≡ has_saved machine.old p }
    ensures answers { AnswersCall p at call machine.old (turn_of_answer result) machine.new }
{
    match machine.process(p) {
        Some(process) => {
            let process = *process;
            do_call(machine, p, process, at, call)
        }
        None => unreachable!(),
    }
}
