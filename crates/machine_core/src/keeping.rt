//! Processes by number and the list of running numbers, kept together by turns and by edits.

ghost use Rattle.std.specs.Prelude.{◌≡◌, Bool, length, true, OnOk, OnErr};
ghost use Rattle.std.specs.FinMap as map;
ghost use Rattle.std.specs.Option.{is_some};
ghost use Rattle.machine_core.specs.Machine.{AnswersAs, has_space, is_running, wholes};
ghost use Rattle.machine_core.specs.Turns.{after_asked, turn_asked};
ghost use Rattle.machine_core.specs.Executions.{after_executions, came_to_last, steps_to, stops_in};
ghost use Rattle.machine_core.specs.BareTurns.{turn_with};
ghost use Rattle.machine_core.specs.Kept.{IsChanged, IsListBut, IsRunningList, machine_of, room_at, runs_at};
ghost use Rattle.overlay_memory.specs.View.{NoneAwaits, state_of};
ghost use Rattle.space_maps.specs.Spaces.{holds_space};

use crate::bare_turn::BareTurn;
use crate::guest::{answer_request, bytes_asked};
use crate::process::{Process, is_running};
use crate::stretches::execute_up_to;
use ascending_numbers::AscendingNumbers;
use breakpoints::Addresses;
use by_number::ByNumber;
use decoded_lines::DecodedLines;
use overlay_memory::OverlayMemory;
use rv_execute::Outcome;
use rv_mul::Instructions;
use std::alloc::AllocError;

/// Whether there is a process of that number, and it runs.
#[inline]
pub(crate) fn runs_in(processes: &ByNumber<Process>, p: u16) -> bool
    ensures { result ≡ runs_at processes.now p }
{
    match processes.get(p) {
        Some(process) => is_running(process),
        None => false,
    }
}

/// How many bytes what a process asks for may write.
#[inline]
pub(crate) fn room_in(processes: &ByNumber<Process>, p: u16) -> usize
    ensures { result ≡ room_at processes.now p }
{
    match processes.get(p) {
        Some(process) => bytes_asked(&process.regs),
        None => 0,
    }
}

/// Lists a number where its process runs, and else takes it out. The list is right of each other number.
fn relist(processes: &ByNumber<Process>, running: &mut AscendingNumbers, p: u16)
    requires { IsListBut p processes.now running.old }
    ensures { IsRunningList processes.now running.new }
{
    if runs_in(processes, p) {
        running.put(p);
    } else {
        running.take(p);
    }
}

/// Executes up to so many instructions of a running process, whose space is there, as long as each is a step and leaves the pc at no
/// stop. Answers also whether it still runs.
#[inline]
fn execute_in<const EXTENSION: bool>(
    processes: &mut ByNumber<Process>,
    memory: &mut OverlayMemory,
    lines: &mut DecodedLines<Instructions<EXTENSION>>,
    p: u16,
    most: u32,
    stops: Option<&Addresses>,
) -> ((u32, Outcome), bool)
    requires runs { is_running (wholes (machine_of EXTENSION memory.old processes.old)) p ≡ true }
    requires there { has_space (machine_of EXTENSION memory.old processes.old) p ≡ true }
    requires none_awaits { NoneAwaits (state_of memory.old) p }
    ensures counts { AnswersAs (λ state. steps_to (stops_in stops.entry) most state p)
        (machine_of EXTENSION memory.old processes.old) result.0.0 }
    ensures answers { AnswersAs (λ state. came_to_last (stops_in stops.entry) most state p)
        (machine_of EXTENSION memory.old processes.old) result.0.1 }
    ensures changed { IsChanged p (machine_of EXTENSION memory.old processes.old)
        (machine_of EXTENSION memory.new processes.new)
        (λ state. after_executions (stops_in stops.entry) most state p) }
    ensures runs { result.1 ≡ runs_at processes.new p }
{
    match processes.get_mut(p) {
        Some(process) => {
            let came = execute_up_to(process, memory, lines, p, most, stops);
            (came, is_running(process))
        }
        None => unreachable!(),
    }
}

/// Executes up to so many instructions of a running process, whose space is there, as long as each is a step and leaves the pc at no
/// stop. One that faults is taken out of the list.
#[inline]
pub(crate) fn execute_turns<const EXTENSION: bool>(
    processes: &mut ByNumber<Process>,
    memory: &mut OverlayMemory,
    running: &mut AscendingNumbers,
    lines: &mut DecodedLines<Instructions<EXTENSION>>,
    p: u16,
    most: u32,
    stops: Option<&Addresses>,
) -> (u32, Outcome)
    requires kept { IsRunningList processes.old running.old }
    requires runs { is_running (wholes (machine_of EXTENSION memory.old processes.old)) p ≡ true }
    requires there { has_space (machine_of EXTENSION memory.old processes.old) p ≡ true }
    requires none_awaits { NoneAwaits (state_of memory.old) p }
    ensures counts { AnswersAs (λ state. steps_to (stops_in stops.entry) most state p)
        (machine_of EXTENSION memory.old processes.old) result.0 }
    ensures answers { AnswersAs (λ state. came_to_last (stops_in stops.entry) most state p)
        (machine_of EXTENSION memory.old processes.old) result.1 }
    ensures changed { IsChanged p (machine_of EXTENSION memory.old processes.old)
        (machine_of EXTENSION memory.new processes.new)
        (λ state. after_executions (stops_in stops.entry) most state p) }
    ensures kept { IsRunningList processes.new running.new }
{
    let (came, runs) = execute_in(processes, memory, lines, p, most, stops);
    if runs {
        return came;
    }
    relist(processes, running, p);
    came
}

/// Does what a running process, whose space is there, asked for, with extension M or without. Answers also whether it still runs.
#[inline]
fn answer_in(
    processes: &mut ByNumber<Process>,
    memory: &mut OverlayMemory,
    p: u16,
    bytes: &mut [u8],
) -> (BareTurn, bool)
    requires runs { runs_at processes.old p ≡ true }
    requires there { holds_space (state_of memory.old) p ≡ true }
    requires room { length bytes.old ≡ room_at processes.old p }
    ensures answers { (extension : Bool) → AnswersAs (λ state. turn_asked state p)
        (machine_of extension memory.old processes.old) (turn_with result.0 bytes.new) }
    ensures changed { (extension : Bool) → IsChanged p (machine_of extension memory.old processes.old)
        (machine_of extension memory.new processes.new)
        (λ state. after_asked state p) }
    ensures runs { result.1 ≡ runs_at processes.new p }
{
    match processes.get_mut(p) {
        Some(process) => {
            let turn = answer_request(process, memory, p, bytes);
            (turn, is_running(process))
        }
        None => unreachable!(),
    }
}

/// Does what a running process, whose space is there, asked for, with extension M or without. One that exits is taken out of the list.
pub(crate) fn answer_turn(
    processes: &mut ByNumber<Process>,
    memory: &mut OverlayMemory,
    running: &mut AscendingNumbers,
    p: u16,
    bytes: &mut [u8],
) -> BareTurn
    requires kept { IsRunningList processes.old running.old }
    requires runs { runs_at processes.old p ≡ true }
    requires there { holds_space (state_of memory.old) p ≡ true }
    requires room { length bytes.old ≡ room_at processes.old p }
    ensures answers { (extension : Bool) → AnswersAs (λ state. turn_asked state p)
        (machine_of extension memory.old processes.old) (turn_with result bytes.new) }
    ensures changed { (extension : Bool) → IsChanged p (machine_of extension memory.old processes.old)
        (machine_of extension memory.new processes.new)
        (λ state. after_asked state p) }
    ensures kept { IsRunningList processes.new running.new }
{
    let (turn, runs) = answer_in(processes, memory, p, bytes);
    if runs {
        return turn;
    }
    relist(processes, running, p);
    turn
}

/// Gives a number a process. After want of memory each number has what it had.
pub(crate) fn adopt(
    processes: &mut ByNumber<Process>,
    running: &mut AscendingNumbers,
    p: u16,
    process: Process,
) -> Result<(), AllocError>
    requires kept { IsRunningList processes.old running.old }
    ensures ok { OnOk result (processes.new ≡ map.insert processes.old p process) }
    ensures err { OnErr result (processes.new ≡ processes.old) }
    ensures kept { IsRunningList processes.new running.new }
{
    running.reserve(u32::from(p) + 1)?;
    // it is handed on field by field: the checker has to be told of their types here
    let Process { regs, state, saved } = process;
    processes.insert(p, Process { regs, state, saved })?;
    relist(processes, running, p);
    Ok(())
}

/// Puts a process in the place of one. Takes no memory: there is room for each number.
pub(crate) fn set(
    processes: &mut ByNumber<Process>,
    running: &mut AscendingNumbers,
    p: u16,
    process: Process,
)
    requires kept { IsRunningList processes.old running.old }
    requires there { is_some (map.get processes.old p) ≡ true }
    ensures set { processes.new ≡ map.insert processes.old p process }
    ensures kept { IsRunningList processes.new running.new }
{
    match processes.get_mut(p) {
        Some(place) => *place = process,
        None => unreachable!(),
    }
    relist(processes, running, p);
}

/// Takes a process away.
pub(crate) fn remove(processes: &mut ByNumber<Process>, running: &mut AscendingNumbers, p: u16)
    requires kept { IsRunningList processes.old running.old }
    ensures removed { processes.new ≡ map.remove processes.old p }
    ensures kept { IsRunningList processes.new running.new }
{
    processes.remove(p);
    relist(processes, running, p);
}
