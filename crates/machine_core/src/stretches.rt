//! Stretches of instructions of one process. What words mean goes by whether extension M is there, and whether there are addresses at which
//! executions stop, are constants here: all of this is compiled once for each.

ghost use Rattle.std.specs.Prelude.{◌≡◌, ◌≢◌, ℕ, ◌+◌, ◌%◌, ◌^◌, ◌<◌, ◌≤◌, [], None, true, false};
ghost use Rattle.std.specs.FinSet.{contains};
ghost use Rattle.rv_execute.specs.Execution.{Executed, execution_by, full_in};
ghost use Rattle.rv_mul.specs.Tables.{table_of};
ghost use Rattle.overlay_pages.specs.State.{memory_of};
ghost use Rattle.overlay_memory.specs.View.{NoneAwaits, state_of};
ghost use Rattle.space_maps.specs.Spaces.{holds_space};
ghost use Rattle.breakpoints.specs.Breakpoints.{Addresses};
ghost use Rattle.machine_core.specs.Access.{IsReadyView, spaces_lent};
ghost use Rattle.machine_core.specs.Ahead.{guest_ahead};
ghost use Rattle.machine_core.specs.Executions.{Comes, EndsWith, executions, steps_in, stops_in};
ghost use Rattle.machine_core.specs.Held.{AreInLine, GoesPast, HasExecuted, HasReached, HasRun, IsInHand, IsOn, IsReached, IsWordAt, Makes, goes_behind, goes_on, owing};
ghost use Rattle.machine_core.specs.InHand.{StaysInHand};
ghost use Rattle.machine_core.specs.Kept.{IsBeside, guest_lent};
ghost use Rattle.machine_core.specs.Turns.{AreLikeGuests, executed, outcome_of, state_left};

use crate::hand::Hand;
use crate::process::Process;
use crate::view::View;
use breakpoints::Addresses;
use decoded_lines::DecodedLines;
use overlay_bits::Bits;
use overlay_memory::OverlayMemory;
use ovl_io::{Perms, ProcessState};
use rv_decode::Instr;
use rv_execute::{Action, Outcome, Regs, perform};
use rv_mul::Instructions;

/// Whether the next word of the line follows an action that is a step: it doesn't jump, and lines are still in hand.
#[inline(always)]
fn goes_on(action: &Action, known: Bits) -> bool
    ensures { result ≡ goes_on action.now known }
{
    match *action {
        Action::Load(_, _, _) => 0 < known.len(),
        Action::Store(_, _, _) => 0 < known.len(),
        Action::Write(_) => true,
        Action::Next => true,
        Action::Link(_) => false,
        Action::Goto(_) => false,
        Action::Ask => false,
        Action::Stop => false,
    }
}

/// The same of an action of which that came: only a step is followed.
#[inline(always)]
fn goes_behind(outcome: Outcome, action: &Action, known: Bits) -> bool
    ensures { result ≡ goes_behind outcome action.now known }
{
    match outcome {
        Outcome::Stepped => goes_on(action, known),
        Outcome::Asked => false,
        Outcome::Fault(_, _) => false,
        Outcome::Full(_, _) => false,
    }
}

/// As `Instructions::execute`, of a word that stands decoded. Its fetch is still to be counted. Answers also whether the next word of the
/// line follows.
#[inline]
fn execute_decoded<const EXTENSION: bool, const STOPS: bool>(
    regs: &mut Regs,
    view: &mut View,
    word: &Instr,
) -> (Outcome, bool)
    requires ready { IsReadyView view.old }
    requires word { IsWordAt EXTENSION view.old regs.old.pc word.now }
    ensures ready { IsReadyView view.new }
    ensures done { Executed (execution_by (table_of EXTENSION))
        regs.old (memory_of (spaces_lent view.old) view.old.space)
        regs.new (memory_of (spaces_lent view.new) view.new.space) result.0 }
    ensures made { (n : ℕ) → Makes n (n + 1) regs.old.pc
        (execution_by (table_of EXTENSION) regs.old (memory_of (spaces_lent view.old) view.old.space)).calls
        view.old (full_in result.0) view.new }
    ensures on { result.1 ≡ true → IsOn view.old view.new regs.old.pc regs.new.pc result.0 }
{
    let action = Instructions::<EXTENSION>::action_on(word, regs);
    let outcome = perform(action, word.rd, regs, view);
    let on = goes_behind(outcome, &action, view.hand.known);
    (outcome, on)
}

/// Faults a process, where that came of its instruction.
#[inline]
fn note(process: &mut Process, outcome: Outcome)
    ensures { process.new ≡ record {
      regs = process.old.regs;
      state = state_left outcome process.old.state;
      saved = process.old.saved;
    } }
{
    if let Outcome::Fault(kind, address) = outcome {
        process.state = ProcessState::Faulted(kind, address);
    }
}

/// Executes the instruction at pc, whose word stands decoded, in the space that is lent, which is there. Its fetch is still to be counted.
/// Answers what came of it, and whether the next word of the line follows. Each loop over instructions has one of its own, which is taken
/// into it since nothing else calls it.
#[inline]
fn execute_word<const EXTENSION: bool, const STOPS: bool>(
    process: &mut Process,
    view: &mut View,
    word: &Instr,
) -> (Outcome, bool)
    requires runs { process.old.state ≡ ProcessState.Running }
    requires ready { IsReadyView view.old }
    requires word { IsWordAt EXTENSION view.old process.old.regs.pc word.now }
    ensures ready { IsReadyView view.new }
    ensures on { result.1 ≡ true
        → IsOn view.old view.new process.old.regs.pc process.new.regs.pc result.0 }
    ensures stays { StaysInHand view.old view.new }
    ensures loan { view.new.memory.ghost_name ≡ view.old.memory.ghost_name }
    ensures space { view.new.space ≡ view.old.space }
    ensures outcome { (n : ℕ) → result.0
        ≡ outcome_of view.old.space (guest_ahead n (guest_lent EXTENSION view.old process.old)) }
    ensures after { (n : ℕ) → AreLikeGuests (guest_ahead (n + 1) (guest_lent EXTENSION view.new process.new))
        (executed view.old.space (guest_ahead n (guest_lent EXTENSION view.old process.old))) }
    ensures saved { process.new.saved ≡ process.old.saved }
    ensures beside { IsBeside view.old.space (spaces_lent view.old) (spaces_lent view.new) }
{
    let (outcome, on) = execute_decoded::<EXTENSION, STOPS>(&mut process.regs, view, word);
    note(process, outcome);
    (outcome, on)
}

/// Executes the instruction at pc in the space that is lent, which is there, and has no line in hand then. Answers whether it was
/// a step, as 0 or 1, and writes down what came of it.
#[cold]
#[inline(never)]
fn execute_apart<const EXTENSION: bool>(
    process: &mut Process,
    view: &mut View,
    came: &mut Outcome,
) -> u32
    requires runs { process.old.state ≡ ProcessState.Running }
    requires ready { IsReadyView view.old }
    ensures loan { view.new.memory.ghost_name ≡ view.old.memory.ghost_name }
    ensures space { view.new.space ≡ view.old.space }
    ensures came { (stops : Addresses) (most : ℕ) → 0 < most → Comes stops view.old.space most
        (guest_ahead view.old.hand.owed (guest_lent EXTENSION view.old process.old)) result came.new
        (guest_ahead view.new.hand.owed (guest_lent EXTENSION view.new process.new)) }
    ensures none { view.new.hand.known ≡ [] }
    ensures owed { view.new.hand.owed ≡ view.old.hand.owed }
    ensures steps { result ≡ steps_in came.new }
    ensures running { came.new ≡ Outcome.Stepped → process.new.state ≡ ProcessState.Running }
    ensures ready { IsReadyView view.new }
    ensures saved { process.new.saved ≡ process.old.saved }
    ensures beside { IsBeside view.old.space (spaces_lent view.old) (spaces_lent view.new) }
{
    let outcome = Instructions::<EXTENSION>::execute(&mut process.regs, view);
    view.hand.lose();
    note(process, outcome);
    *came = outcome;
    steps_in(outcome)
}

/// How many steps an instruction was of which that came.
#[inline]
fn steps_in(outcome: Outcome) -> u32
    ensures { result ≡ steps_in outcome }
{
    match outcome {
        Outcome::Stepped => 1,
        Outcome::Asked => 0,
        Outcome::Fault(_, _) => 0,
        Outcome::Full(_, _) => 0,
    }
}

/// As `execute_apart`, but that it answers what came of it, and says what is so of a run of some instructions.
#[inline(always)]
fn apart<const EXTENSION: bool>(
    process: &mut Process,
    view: &mut View,
    lines: &DecodedLines<Instructions<EXTENSION>>,
    most: u32,
    stops: Option<&Addresses>,
) -> (u32, Outcome)
    requires runs { process.old.state ≡ ProcessState.Running }
    requires ready { IsReadyView view.old }
    requires some { 0 < most }
    ensures { HasRun EXTENSION (stops_in stops.entry) most lines.now
        process.old process.new view.old view.new result.0 result.1 }
{
    let mut came = Outcome::Stepped;
    let n = execute_apart::<EXTENSION>(process, view, &mut came);
    (n, came)
}

/// Ends a run behind so many steps and an instruction of which that came. Answers how many steps they are. That of a step, which is common,
/// has a way of its own.
#[inline(always)]
fn leave(hand: &mut Hand, k: u32, outcome: Outcome) -> (u32, Outcome)
    requires few { hand.old.owed + k + 1 < 2 ^ 32 }
    ensures steps { result.0 ≡ k + steps_in outcome }
    ensures outcome { result.1 ≡ outcome }
    ensures left { hand.new ≡ owing hand.old (k + 1) }
{
    match outcome {
        Outcome::Stepped => {
            hand.owed += k + 1;
            (k + 1, Outcome::Stepped)
        }
        _ => {
            hand.owed += k + 1;
            (k, outcome)
        }
    }
}

/// How many words of a line there are from an address on, at most so many, of which all but the first are at no stop.
#[inline]
fn count_from<const STOPS: bool>(stops: Option<&Addresses>, pc: u64, most: u32) -> u32
    requires inside { AreInLine pc most }
    requires some { 0 < most }
    requires unstopped { STOPS ≡ false → stops ≡ None }
    ensures some { 0 < result }
    ensures few { result ≤ most }
    ensures past { GoesPast (stops_in stops.entry) pc result }
{
    if !STOPS {
        return most;
    }
    match stops {
        Some(addresses) => addresses.words_past(pc, most),
        None => most,
    }
}

/// Executes up to so many instructions from a line in hand, of which the first is that at pc, one behind the other as long as each is
/// a step and leaves the line in hand; or one, where its word doesn't stand decoded. Answers how many were steps, and what came of the
/// last one. The last step may leave the pc at a stop, and no other one does. Fetches are still to be counted, at most one for each.
#[inline]
fn run<const EXTENSION: bool, const STOPS: bool>(
    process: &mut Process,
    view: &mut View,
    lines: &DecodedLines<Instructions<EXTENSION>>,
    most: u32,
    stops: Option<&Addresses>,
) -> (u32, Outcome)
    requires runs { process.old.state ≡ ProcessState.Running }
    requires ready { IsReadyView view.old }
    requires taken { IsReached lines.now view.old.memory.now view.old.space view.old.hand
        process.old.regs.pc }
    requires some { 0 < most }
    requires few { view.old.hand.owed + most < 2 ^ 32 }
    requires unstopped { STOPS ≡ false → stops ≡ None }
    ensures { HasRun EXTENSION (stops_in stops.entry) most lines.now
        process.old process.new view.old view.new result.0 result.1 }
{
    let pc = process.regs.pc();
    let words = lines.words_from(pc / 4);
    if words.is_empty() {
        return apart(process, view, lines, most, stops);
    }
    let count = count_from::<STOPS>(stops, pc, most.min(words.len() as u32));
    let mut rest = &words[..count as usize];
    'running: while !rest.is_empty() {
        let (outcome, on) = execute_word::<EXTENSION, STOPS>(process, view, &rest[0]);
        if !on {
            return leave(&mut view.hand, count - rest.len() as u32, outcome);
        }
        rest = &rest[1..];
    }
    view.hand.owed += count;
    (count, Outcome::Stepped)
}

/// Has the line of the instruction at pc in hand where its page is known, and has only to be brought to the front of its list. That is its
/// fetch, which is made at once, in the place of one that is owed. Answers whether the line is in hand then.
fn bring<const EXTENSION: bool>(
    process: &Process,
    view: &mut View,
    lines: &mut DecodedLines<Instructions<EXTENSION>>,
) -> bool
    requires ready { IsReadyView view.old }
    ensures { HasReached EXTENSION lines.new process.now view.old view.new result }
{
    let pc = process.regs.pc();
    if pc % 4 != 0 || view.hand.owed == 0 {
        return false;
    }
    if !view.memory.bring_front(view.space, pc, Perms::X) {
        return false;
    }
    view.hand.owed -= 1;
    view.hand.lose();
    view.hand.take(&*view.memory, view.space, lines, pc)
}

/// Has the line of the instruction at pc in hand, where it can be taken or brought. Answers whether it has.
#[cold]
#[inline(never)]
fn take_or_bring<const EXTENSION: bool>(
    process: &Process,
    view: &mut View,
    lines: &mut DecodedLines<Instructions<EXTENSION>>,
) -> bool
    requires ready { IsReadyView view.old }
    requires hand { IsInHand lines.old view.old.memory.now view.old.space view.old.hand }
    ensures { HasReached EXTENSION lines.new process.now view.old view.new result }
{
    let pc = process.regs.pc();
    if view.hand.take(&*view.memory, view.space, lines, pc) {
        return true;
    }
    bring(process, view, lines)
}

/// Has the line of the instruction at pc in hand, where it is there, or can be taken or brought. Answers whether it has.
#[inline(always)]
fn have_line<const EXTENSION: bool>(
    process: &Process,
    view: &mut View,
    lines: &mut DecodedLines<Instructions<EXTENSION>>,
) -> bool
    requires ready { IsReadyView view.old }
    requires hand { IsInHand lines.old view.old.memory.now view.old.space view.old.hand }
    ensures { HasReached EXTENSION lines.new process.now view.old view.new result }
{
    view.hand.has_line(process.regs.pc()) || take_or_bring(process, view, lines)
}

/// Executes some instructions, at most so many, as `run` does, where the line of the first one is in hand, or can be taken or brought, and else one. Answers how
/// many were steps, and what came of the last one.
#[inline]
fn advance<const EXTENSION: bool, const STOPS: bool>(
    process: &mut Process,
    view: &mut View,
    lines: &mut DecodedLines<Instructions<EXTENSION>>,
    most: u32,
    stops: Option<&Addresses>,
) -> (u32, Outcome)
    requires runs { process.old.state ≡ ProcessState.Running }
    requires ready { IsReadyView view.old }
    requires hand { IsInHand lines.old view.old.memory.now view.old.space view.old.hand }
    requires some { 0 < most }
    requires few { view.old.hand.owed + most < 2 ^ 32 }
    requires unstopped { STOPS ≡ false → stops ≡ None }
    ensures { HasRun EXTENSION (stops_in stops.entry) most lines.new
        process.old process.new view.old view.new result.0 result.1 }
{
    if have_line(process, view, lines) {
        return run::<EXTENSION, STOPS>(process, view, lines, most, stops);
    }
    apart(process, view, lines, most, stops)
}

/// Whether an address is among those at which executions stop.
#[inline]
fn is_stop<const STOPS: bool>(stops: Option<&Addresses>, address: u64) -> bool
    requires unstopped { STOPS ≡ false → stops ≡ None }
    ensures { result ≡ contains (stops_in stops.entry) address }
{
    if !STOPS {
        return false;
    }
    match stops {
        Some(addresses) => addresses.has(address),
        None => false,
    }
}

/// Executes up to so many instructions in the space that is lent, which is there, as long as each is a step and leaves the pc
/// at no stop. Answers how many were steps, and what came of the last one. Fetches are still to be counted, at most one for each.
#[inline]
fn step_owing<const EXTENSION: bool, const STOPS: bool>(
    process: &mut Process,
    view: &mut View,
    lines: &mut DecodedLines<Instructions<EXTENSION>>,
    most: u32,
    stops: Option<&Addresses>,
) -> (u32, Outcome)
    requires runs { process.old.state ≡ ProcessState.Running }
    requires ready { IsReadyView view.old }
    requires hand { IsInHand lines.old view.old.memory.now view.old.space view.old.hand }
    requires none { view.old.hand.owed ≡ 0 }
    requires unstopped { STOPS ≡ false → stops ≡ None }
    ensures loan { view.new.memory.ghost_name ≡ view.old.memory.ghost_name }
    ensures space { view.new.space ≡ view.old.space }
    ensures ends { EndsWith (executions (stops_in stops.entry) view.old.space most
        (guest_lent EXTENSION view.old process.old))
        result.0 result.1 (guest_ahead view.new.hand.owed (guest_lent EXTENSION view.new process.new)) }
    ensures saved { process.new.saved ≡ process.old.saved }
    ensures beside { IsBeside view.old.space (spaces_lent view.old) (spaces_lent view.new) }
{
    let mut left = most;
    'stepping: while left > 0 {
        let (n, outcome) = advance::<EXTENSION, STOPS>(process, view, lines, left, stops);
        match outcome {
            Outcome::Stepped => {
                left -= n;
                if is_stop::<STOPS>(stops, process.regs.pc()) {
                    return (most - left, Outcome::Stepped);
                }
            }
            _ => return (most - left + n, outcome),
        }
    }
    (most, Outcome::Stepped)
}

/// As `execute_up_to`, where it is known when it is compiled whether there are stops.
#[inline(never)]
fn execute_stopping<const EXTENSION: bool, const STOPS: bool>(
    process: &mut Process,
    memory: &mut OverlayMemory,
    lines: &mut DecodedLines<Instructions<EXTENSION>>,
    p: u16,
    most: u32,
    stops: Option<&Addresses>,
) -> (u32, Outcome)
    requires runs { process.old.state ≡ ProcessState.Running }
    requires there { holds_space (state_of memory.old) p ≡ true }
    requires none_awaits { NoneAwaits (state_of memory.old) p }
    requires unstopped { STOPS ≡ false → stops ≡ None }
    ensures { HasExecuted EXTENSION (stops_in stops.entry) p most
        process.old process.new memory.old memory.new result.0 result.1 }
{
    let mut view = View {
        memory,
        space: p,
        hand: Hand::none(),
    };
    let came = step_owing::<EXTENSION, STOPS>(process, &mut view, lines, most, stops);
    view.pay();
    came
}

/// Executes up to so many instructions in space `p`, which is there, as long as each is a step and leaves the pc at no stop.
/// Answers how many were steps, and what came of the last one.
#[inline]
pub(crate) fn execute_up_to<const EXTENSION: bool>(
    process: &mut Process,
    memory: &mut OverlayMemory,
    lines: &mut DecodedLines<Instructions<EXTENSION>>,
    p: u16,
    most: u32,
    stops: Option<&Addresses>,
) -> (u32, Outcome)
    requires runs { process.old.state ≡ ProcessState.Running }
    requires there { holds_space (state_of memory.old) p ≡ true }
    requires none_awaits { NoneAwaits (state_of memory.old) p }
    ensures { HasExecuted EXTENSION (stops_in stops.entry) p most
        process.old process.new memory.old memory.new result.0 result.1 }
{
    match stops {
        Some(_) => execute_stopping::<EXTENSION, true>(process, memory, lines, p, most, stops),
        None => execute_stopping::<EXTENSION, false>(process, memory, lines, p, most, stops),
    }
}
