//! Turns of a machine: one at a time, and up to the next that has a line.

ghost use Rattle.std.specs.Prelude.{◌≡◌, ◌+◌, ◌≤◌, ◌<◌, [], Some, None, true, false, length, IfSome};
ghost use Rattle.std.specs.FinMap.{empty};
ghost use Rattle.space_maps.specs.Spaces.{space_in};
ghost use Rattle.sizes.specs.declared.TheConstants.{MOST_WRITTEN};
ghost use Rattle.report_text.specs.Answers.{HasPort, has_turn_line, turn_text};
ghost use Rattle.machine_core.specs.Machine.{AreLike, KeepsPlaces, StaysBut, has_saved, has_space, is_marked, is_running, spaces_of, wholes};
ghost use Rattle.machine_core.specs.Ample.{is_full_turn};
ghost use Rattle.machine_core.specs.BareTurns.{room_asked, turn_with};
ghost use Rattle.machine_core.specs.Executions.{after_executions, came_to_last, steps_to};
ghost use Rattle.self_speculation.specs.Requests.{KeepsPairs};
ghost use Rattle.self_speculation.specs.Taken.{AnswersRequest, after_taken, taken_turn};
ghost use Rattle.process_runs.specs.Places.{HavePairs, KeepsAllPerms, KeepsFree, NoPageAwaits, OwnSpaces};
ghost use Rattle.breakpoints.specs.Breakpoints.{addresses_of};
ghost use Rattle.process_runs.specs.Turns.{EndsRun, EndsStretch, FinishesTurn, IsTurnLine, Speaks, TakesTurn, break_among, break_of, ending, ending_by, found_before, last_break, begun_by, lines_left, next_of, rest_of, run_found};

use crate::turns::{Order, Running};
use breakpoints::{Addresses, Breakpoints};
use machine_core::{BareTurn, Machine, Process};
use ovl_io::{ProcessState, Turn};
use report_text::{Line, Stop, turn_line, wrote_line};
use rv_execute::Outcome;
use self_speculation::{answer, event};
use sizes::MOST_WRITTEN;

/// Sizes of the room for a write: it is cleared, so a short write has little.
const SMALL_WRITE: usize = 64;

const MIDDLE_WRITE: usize = 512;

/// Executes up to so many instructions of a running process, whose space is there, as long as each is a step and leads to none
/// of its breakpoints. Answers how many were steps, and what came of the last one.
#[inline]
fn execute_up_to(
    machine: &mut Machine,
    breakpoints: &Breakpoints,
    p: u16,
    most: u32,
) -> (u32, Outcome)
    requires runs { is_running (wholes machine.old) p ≡ true }
    requires there { has_space machine.old p ≡ true }
    requires none_awaits { (space_in (spaces_of machine.old) p).awaiting ≡ empty }
    ensures steps { result.0
        ≡ steps_to (addresses_of breakpoints.now p) most (wholes machine.old) p }
    ensures outcome { result.1
        ≡ came_to_last (addresses_of breakpoints.now p) most (wholes machine.old) p }
    ensures after { AreLike (wholes machine.new)
        (after_executions (addresses_of breakpoints.now p) most (wholes machine.old) p) }
    ensures others { StaysBut p machine.old machine.new }
    ensures places { KeepsPlaces machine.old machine.new }
{
    machine.execute_up_to(p, most, breakpoints.of(p))
}

/// Does what a process asked for, and answers what came of it.
#[inline]
fn answer_request(machine: &mut Machine, p: u16, calls: bool, bytes: &mut [u8]) -> BareTurn
    requires runs { is_running (wholes machine.old) p ≡ true }
    requires there { has_space machine.old p ≡ true }
    requires none_awaits { (space_in (spaces_of machine.old) p).awaiting ≡ empty }
    requires pairs { is_marked machine.old p ≡ has_saved machine.old p }
    requires room { length bytes.old ≡ room_asked (wholes machine.old) p }
    ensures answers { AnswersRequest calls p (wholes machine.old) (turn_with result bytes.new)
        (wholes machine.new) }
    ensures port { HasPort (turn_with result bytes.new) }
    ensures kept { KeepsPairs machine.old machine.new }
    ensures free { KeepsFree machine.old machine.new }
    ensures perms { KeepsAllPerms machine.old machine.new }
{
    answer(machine, p, calls, bytes)
}

/// The rest of a turn of a process whose execution came to this: what it asked for, where it did. Answers what came of the turn. The bytes of
/// a write come into `bytes`, which has room for just as many as it may write.
#[inline]
fn finish_turn(
    machine: &mut Machine,
    p: u16,
    outcome: Outcome,
    calls: bool,
    bytes: &mut [u8],
) -> BareTurn
    requires runs { outcome ≡ Outcome.Asked → is_running (wholes machine.old) p ≡ true }
    requires there { has_space machine.old p ≡ true }
    requires none_awaits { (space_in (spaces_of machine.old) p).awaiting ≡ empty }
    requires pairs { is_marked machine.old p ≡ has_saved machine.old p }
    requires room { outcome ≡ Outcome.Asked → length bytes.old ≡ room_asked (wholes machine.old) p }
    ensures turn { FinishesTurn calls p outcome (wholes machine.old) (turn_with result bytes.new)
        (wholes machine.new) }
    ensures port { HasPort (turn_with result bytes.new) }
    ensures kept { KeepsPairs machine.old machine.new }
    ensures free { KeepsFree machine.old machine.new }
    ensures perms { KeepsAllPerms machine.old machine.new }
{
    match outcome {
        Outcome::Stepped => BareTurn::Stepped,
        Outcome::Asked => answer_request(machine, p, calls, bytes),
        Outcome::Fault(kind, address) => BareTurn::Faulted(kind, address),
        Outcome::Full(units, limit) => BareTurn::Full(units, limit),
    }
}

/// The line of a turn, which it sets, and whether it has one.
#[inline]
fn line_of(p: u16, came: BareTurn, bytes: &[u8], line: &mut Line) -> bool
    requires few { length bytes.now ≤ MOST_WRITTEN }
    requires port { HasPort (turn_with came bytes.now) }
    ensures text { line.new.items ≡ turn_text p (turn_with came bytes.now) }
    ensures has { result ≡ has_turn_line (turn_with came bytes.now) }
{
    match came {
        BareTurn::Stepped => {
            line.clear();
            false
        }
        BareTurn::Wrote(port) => {
            wrote_line(p, port, bytes, line);
            true
        }
        BareTurn::Exited(_) | BareTurn::Faulted(_, _) | BareTurn::Full(_, _) => {
            spoken(p, came, bytes, line)
        }
    }
}

/// The line of a turn, by the turn. It stands apart, since a turn has room for all that a process may write.
#[inline(never)]
fn spoken(p: u16, came: BareTurn, bytes: &[u8], line: &mut Line) -> bool
    requires few { length bytes.now ≤ MOST_WRITTEN }
    requires port { HasPort (turn_with came bytes.now) }
    ensures text { line.new.items ≡ turn_text p (turn_with came bytes.now) }
    ensures has { result ≡ has_turn_line (turn_with came bytes.now) }
{
    turn_line(p, &came.turn(bytes), line)
}

/// What follows the last execution of a stretch, which was no step, with room for the bytes of a write: what the process asked for is
/// done, the turn is counted, and its line is set, where it has one.
#[inline]
fn end_with(
    machine: &mut Machine,
    running: &mut Running,
    p: u16,
    outcome: Outcome,
    bytes: &mut [u8],
    line: &mut Line,
) -> bool
    requires runs { outcome ≡ Outcome.Asked → is_running (wholes machine.old) p ≡ true }
    requires there { has_space machine.old p ≡ true }
    requires none_awaits { (space_in (spaces_of machine.old) p).awaiting ≡ empty }
    requires pairs { is_marked machine.old p ≡ has_saved machine.old p }
    requires room { outcome ≡ Outcome.Asked → length bytes.old ≡ room_asked (wholes machine.old) p }
    requires few { length bytes.old ≤ MOST_WRITTEN }
    requires left { running.old.run.taken < running.old.run.turns }
    requires goes { running.old.stop ≡ None }
    ensures ends { EndsStretch p outcome
        (wholes machine.old) running.old (wholes machine.new) running.new result line.new.items }
    ensures within { running.new.run.taken ≤ running.new.run.turns }
    ensures kept { KeepsPairs machine.old machine.new }
    ensures free { KeepsFree machine.old machine.new }
    ensures perms { KeepsAllPerms machine.old machine.new }
{
    let came = finish_turn(machine, p, outcome, running.calls(), bytes);
    running.count(p, came.is_full());
    line_of(p, came, bytes, line)
}

/// The same with room of a size of its own, so that only as much is cleared as the write is of.
#[inline(never)]
fn end_writing<const ROOM: usize>(
    machine: &mut Machine,
    running: &mut Running,
    p: u16,
    outcome: Outcome,
    room: usize,
    line: &mut Line,
) -> bool
    requires size { ROOM ≤ MOST_WRITTEN }
    requires fits { room ≤ ROOM }
    requires runs { outcome ≡ Outcome.Asked → is_running (wholes machine.old) p ≡ true }
    requires there { has_space machine.old p ≡ true }
    requires none_awaits { (space_in (spaces_of machine.old) p).awaiting ≡ empty }
    requires pairs { is_marked machine.old p ≡ has_saved machine.old p }
    requires room { outcome ≡ Outcome.Asked → room ≡ room_asked (wholes machine.old) p }
    requires left { running.old.run.taken < running.old.run.turns }
    requires goes { running.old.stop ≡ None }
    ensures ends { EndsStretch p outcome
        (wholes machine.old) running.old (wholes machine.new) running.new result line.new.items }
    ensures within { running.new.run.taken ≤ running.new.run.turns }
    ensures kept { KeepsPairs machine.old machine.new }
    ensures free { KeepsFree machine.old machine.new }
    ensures perms { KeepsAllPerms machine.old machine.new }
{
    let mut buffer = [0; ROOM];
    end_with(machine, running, p, outcome, &mut buffer[..room], line)
}

/// How many bytes the rest of a turn may write whose execution came to this.
#[inline]
fn room_of(machine: &Machine, p: u16, outcome: &Outcome) -> usize
    ensures room { outcome.now ≡ Outcome.Asked → result ≡ room_asked (wholes machine.now) p }
    ensures few { result ≤ MOST_WRITTEN }
{
    match outcome {
        Outcome::Asked => machine.room_asked(p),
        Outcome::Stepped | Outcome::Fault(_, _) | Outcome::Full(_, _) => 0,
    }
}

/// What follows the last execution of a stretch, which was no step: what the process asked for is done, the turn is counted, and its
/// line is set, where it has one.
#[inline(never)]
fn end_stretch(
    machine: &mut Machine,
    running: &mut Running,
    p: u16,
    outcome: Outcome,
    line: &mut Line,
) -> bool
    requires runs { outcome ≡ Outcome.Asked → is_running (wholes machine.old) p ≡ true }
    requires there { has_space machine.old p ≡ true }
    requires none_awaits { (space_in (spaces_of machine.old) p).awaiting ≡ empty }
    requires pairs { is_marked machine.old p ≡ has_saved machine.old p }
    requires left { running.old.run.taken < running.old.run.turns }
    requires goes { running.old.stop ≡ None }
    ensures ends { EndsStretch p outcome
        (wholes machine.old) running.old (wholes machine.new) running.new result line.new.items }
    ensures within { running.new.run.taken ≤ running.new.run.turns }
    ensures kept { KeepsPairs machine.old machine.new }
    ensures free { KeepsFree machine.old machine.new }
    ensures perms { KeepsAllPerms machine.old machine.new }
{
    let room = room_of(machine, p, &outcome);
    if room == 0 {
        return end_with(machine, running, p, outcome, &mut [], line);
    }
    if room <= SMALL_WRITE {
        return end_writing::<SMALL_WRITE>(machine, running, p, outcome, room, line);
    }
    if room <= MIDDLE_WRITE {
        return end_writing::<MIDDLE_WRITE>(machine, running, p, outcome, room, line);
    }
    end_writing::<MOST_WRITTEN>(machine, running, p, outcome, room, line)
}

/// Takes turns of a running process, whose turn is next: until one has a line, which it sets, and answers true; or until one
/// reaches a breakpoint; or as many as there are until another's turn may be next. What the last one asked for is done before it is
/// counted; one for which there aren't units enough isn't counted, and ends the run.
#[inline]
fn take_turns(
    machine: &mut Machine,
    breakpoints: &Breakpoints,
    running: &mut Running,
    p: u16,
    line: &mut Line,
) -> bool
    requires runs { is_running (wholes machine.old) p ≡ true }
    requires there { has_space machine.old p ≡ true }
    requires none_awaits { (space_in (spaces_of machine.old) p).awaiting ≡ empty }
    requires pairs { is_marked machine.old p ≡ has_saved machine.old p }
    requires next { next_of (wholes machine.old) running.old.run.order ≡ Some p }
    requires left { running.old.run.taken < running.old.run.turns }
    requires unbroken { last_break breakpoints.now (wholes machine.old) running.old.run ≡ None }
    requires goes { running.old.stop ≡ None }
    ensures says { result ≡ true → Speaks breakpoints.now
        (wholes machine.old) running.old line.new.items (wholes machine.new) running.new }
    ensures one { result ≡ true → IsTurnLine line.new.items }
    ensures quiet { result ≡ false → Speaks breakpoints.now
        (wholes machine.old) running.old [] (wholes machine.new) running.new }
    ensures goes { result ≡ false → running.new.stop ≡ None }
    ensures fewer { lines_left running.new < lines_left running.old }
    ensures asked { running.new.run.turns ≡ running.old.run.turns }
    ensures within { running.new.run.taken ≤ running.new.run.turns }
    ensures kept { KeepsPairs machine.old machine.new }
    ensures free { KeepsFree machine.old machine.new }
    ensures perms { KeepsAllPerms machine.old machine.new }
{
    let (steps, outcome) = execute_up_to(machine, breakpoints, p, running.stretch(p));
    running.took_turns(p, steps);
    if let Outcome::Stepped = outcome {
        return false;
    }
    end_stretch(machine, running, p, outcome, line)
}

/// The process whose turn is next.
#[inline]
fn next(machine: &Machine, order: &Order) -> Option<u16>
    ensures number { result ≡ next_of (wholes machine.now) order.now }
    ensures runs { IfSome result (λ p. is_running (wholes machine.now) p ≡ true) }
{
    match order {
        Order::ByTurns(turns) => turns.next(machine.running()),
        Order::Alone(p) => {
            if machine.is_running(*p) {
                Some(*p)
            } else {
                None
            }
        }
    }
}

/// Why turns end where no process has the next one.
fn rest(order: &Order) -> Stop
    ensures { result ≡ rest_of order.now }
{
    match order {
        Order::ByTurns(_) => Stop::Idle,
        Order::Alone(_) => Stop::Ended,
    }
}

/// The breakpoint at one of some addresses at which a process runs, if it does.
fn break_in(addresses: &Addresses, p: u16, process: &Process) -> Option<Stop>
    ensures { result ≡ break_among addresses.now p process.now }
{
    let at = process.regs.pc();
    match process.state {
        ProcessState::Running => {
            if addresses.has(at) {
                Some(Stop::Break(p, at))
            } else {
                None
            }
        }
        ProcessState::Exited(_) | ProcessState::Faulted(_, _) => None,
    }
}

/// The breakpoint of a process at which it runs, if it does.
fn break_of(machine: &Machine, breakpoints: &Breakpoints, p: u16) -> Option<Stop>
    ensures { result ≡ break_of breakpoints.now (wholes machine.now) p }
{
    match breakpoints.of(p) {
        None => None,
        Some(addresses) => match machine.process(p) {
            None => None,
            Some(process) => break_in(addresses, p, process),
        },
    }
}

/// The breakpoint to which the last turn led, if it led to one.
#[inline]
fn last_break(machine: &Machine, breakpoints: &Breakpoints, running: &Running) -> Option<Stop>
    ensures { result ≡ last_break breakpoints.now (wholes machine.now) running.now.run }
{
    match running.last() {
        None => None,
        Some(p) => break_of(machine, breakpoints, p),
    }
}

/// The ending that holds where the last turn led to no breakpoint, if one does.
fn ending_unbroken(machine: &Machine, running: &Running) -> Option<Stop>
    ensures { result ≡ ending_by (next_of (wholes machine.now) running.now.run.order) running.now.run }
{
    match next(machine, running.order()) {
        None => Some(rest(running.order())),
        Some(_) => {
            if running.has_left() {
                None
            } else {
                Some(Stop::Limit)
            }
        }
    }
}

/// The ending that holds, if one does.
fn ending(machine: &Machine, breakpoints: &Breakpoints, running: &Running) -> Option<Stop>
    ensures { result ≡ ending breakpoints.now (wholes machine.now) running.now.run }
{
    match last_break(machine, breakpoints, running) {
        Some(stop) => Some(stop),
        None => ending_unbroken(machine, running),
    }
}

/// One instruction of a running process, and what came of it.
pub(crate) fn take_event(machine: &mut Machine, p: u16, calls: bool) -> Turn
    requires runs { is_running (wholes machine.old) p ≡ true }
    requires there { has_space machine.old p ≡ true }
    requires none_awaits { (space_in (spaces_of machine.old) p).awaiting ≡ empty }
    requires pairs { is_marked machine.old p ≡ has_saved machine.old p }
    ensures turn { result ≡ taken_turn calls (wholes machine.old) p }
    ensures after { AreLike (wholes machine.new) (after_taken calls (wholes machine.old) p) }
    ensures kept { KeepsPairs machine.old machine.new }
    ensures free { KeepsFree machine.old machine.new }
    ensures perms { KeepsAllPerms machine.old machine.new }
{
    event(machine, p, calls)
}

/// A run of so many turns of which none was taken, with the ending that holds.
pub fn begin(
    machine: &Machine,
    breakpoints: &Breakpoints,
    order: Order,
    calls: bool,
    turns: u32,
) -> Running
    ensures { result ≡ run_found breakpoints.now (wholes machine.now) (begun_by order calls turns) }
{
    let mut running = Running::new(order, calls, turns);
    let stop = ending(machine, breakpoints, &running);
    running.set_stop(stop);
    running
}

/// Finds the ending that holds, where none was found before.
fn find_ending(machine: &Machine, breakpoints: &Breakpoints, running: &mut Running)
    ensures { running.new ≡ record {
      run = running.old.run;
      stop = found_before breakpoints.now (wholes machine.now) running.old;
    } }
{
    match running.stop() {
        Some(_) => {}
        None => {
            let stop = ending(machine, breakpoints, running);
            running.set_stop(stop);
        }
    }
}

/// Whether there weren't units enough for a turn.
fn is_full(turn: &Turn) -> bool
    ensures { result ≡ is_full_turn turn.now }
{
    match turn {
        Turn::Full(_, _) => true,
        Turn::Stepped | Turn::Wrote(_) | Turn::Exited(_) | Turn::Faulted(_, _) => false,
    }
}

/// Takes the next turn. None exactly where an ending was found before, or one holds; then no turn is taken.
pub fn next_turn(
    machine: &mut Machine,
    breakpoints: &Breakpoints,
    running: &mut Running,
) -> Option<(u16, Turn)>
    requires spaces { OwnSpaces machine.old }
    requires awaits { NoPageAwaits machine.old }
    requires pairs { HavePairs machine.old }
    ensures turn { TakesTurn breakpoints.now
        (wholes machine.old) running.old result (wholes machine.new) running.new }
    ensures still { result ≡ None → machine.new ≡ machine.old }
    ensures kept { KeepsPairs machine.old machine.new }
    ensures free { KeepsFree machine.old machine.new }
    ensures perms { KeepsAllPerms machine.old machine.new }
{
    match running.stop() {
        Some(_) => return None,
        None => {}
    }
    match ending(machine, breakpoints, running) {
        Some(stop) => {
            running.set_stop(Some(stop));
            return None;
        }
        None => {}
    }
    match next(machine, running.order()) {
        None => None,
        Some(p) => {
            let turn = take_event(machine, p, running.calls());
            running.count(p, is_full(&turn));
            find_ending(machine, breakpoints, running);
            Some((p, turn))
        }
    }
}

/// Takes turns of a run of which no ending was found, until one has a line, which it sets, and answers true; or until the run
/// has ended.
fn quiet_turns(
    machine: &mut Machine,
    breakpoints: &Breakpoints,
    running: &mut Running,
    line: &mut Line,
) -> bool
    requires spaces { OwnSpaces machine.old }
    requires awaits { NoPageAwaits machine.old }
    requires pairs { HavePairs machine.old }
    requires goes { running.old.stop ≡ None }
    ensures says { result ≡ true → Speaks breakpoints.now
        (wholes machine.old) running.old line.new.items (wholes machine.new) running.new }
    ensures one { result ≡ true → IsTurnLine line.new.items }
    ensures ends { result ≡ false → EndsRun breakpoints.now
        (wholes machine.old) running.old (wholes machine.new) running.new }
    ensures fewer { result ≡ true → lines_left running.new < lines_left running.old }
    ensures asked { running.new.run.turns ≡ running.old.run.turns }
    ensures within { running.new.run.taken ≤ running.new.run.turns }
    ensures kept { KeepsPairs machine.old machine.new }
    ensures free { KeepsFree machine.old machine.new }
    ensures perms { KeepsAllPerms machine.old machine.new }
{
    'quiet: while running.has_left() {
        match last_break(machine, breakpoints, running) {
            Some(_) => break,
            None => {}
        }
        match next(machine, running.order()) {
            None => break,
            Some(p) => {
                if take_turns(machine, breakpoints, running, p, line) {
                    return true;
                }
            }
        }
    }
    let stop = ending(machine, breakpoints, running);
    running.set_stop(stop);
    false
}

/// Takes turns until one has a line, which it sets, and answers true; or until the run has ended. Where an ending was found
/// before, nothing changes.
pub fn turns_to_line(
    machine: &mut Machine,
    breakpoints: &Breakpoints,
    running: &mut Running,
    line: &mut Line,
) -> bool
    requires spaces { OwnSpaces machine.old }
    requires awaits { NoPageAwaits machine.old }
    requires pairs { HavePairs machine.old }
    ensures says { result ≡ true → Speaks breakpoints.now
        (wholes machine.old) running.old line.new.items (wholes machine.new) running.new }
    ensures one { result ≡ true → IsTurnLine line.new.items }
    ensures ends { result ≡ false → EndsRun breakpoints.now
        (wholes machine.old) running.old (wholes machine.new) running.new }
    ensures fewer { result ≡ true → lines_left running.new < lines_left running.old }
    ensures asked { running.new.run.turns ≡ running.old.run.turns }
    ensures within { running.new.run.taken ≤ running.new.run.turns }
    ensures kept { KeepsPairs machine.old machine.new }
    ensures free { KeepsFree machine.old machine.new }
    ensures perms { KeepsAllPerms machine.old machine.new }
{
    if running.has_ended() {
        return false;
    }
    quiet_turns(machine, breakpoints, running, line)
}
