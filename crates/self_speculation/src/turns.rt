//! What a process asked for, and one turn.

ghost use Rattle.std.specs.Prelude.{◌≡◌, length, true};
ghost use Rattle.std.specs.FinMap.{empty};
ghost use Rattle.space_maps.specs.Spaces.{space_in};
ghost use Rattle.machine_core.specs.Machine.{AnswersAs, LeadsTo, StaysBut, has_saved, has_space, is_marked, is_running, spaces_of, wholes};
ghost use Rattle.machine_core.specs.BareTurns.{room_asked, turn_with};
ghost use Rattle.self_speculation.specs.Taken.{AnswersRequest, after_taken, taken_turn};
ghost use Rattle.self_speculation.specs.Requests.{IsAnswer, KeepsPairs, KeepsPerms, KeepsUnseen};

use crate::requests::{answer_call, find_call};
use machine_core::{BareTurn, Machine};
use ovl_io::Turn;
use rv_execute::Outcome;
use sizes::MOST_WRITTEN;

/// Does what a running process, whose space is there, asked for by ECALL, and answers what came of it. A process that may speculate by itself
/// (`calls`) may ask for that; all else is what the machine does for every process. The bytes of a write come into `bytes`, which has
/// room for just as many as it may write. The ECALL was fetched and counted. Takes no memory.
#[inline]
pub fn answer(machine: &mut Machine, p: u16, calls: bool, bytes: &mut [u8]) -> BareTurn
    requires runs { is_running (wholes machine.old) p ≡ true }
    requires there { has_space machine.old p ≡ true }
    requires none_awaits { (space_in (spaces_of machine.old) p).awaiting ≡ empty }
    requires kept { is_marked machine.old p ≡ has_saved machine.old p }
    requires room { length bytes.old ≡ room_asked (wholes machine.old) p }
    ensures answers { AnswersRequest calls p (wholes machine.old) (turn_with result bytes.new)
        (wholes machine.new) }
    ensures others { StaysBut p machine.old machine.new }
    ensures pairs { KeepsPairs machine.old machine.new }
    ensures unseen { KeepsUnseen p machine.old machine.new }
    ensures perms { KeepsPerms p machine.old machine.new }
    ensures came { IsAnswer p machine.old (turn_with result bytes.new) }
{
    match find_call(machine, p, calls) {
        Some(asked) => answer_call(machine, p, asked.0, asked.1).turn(),
        None => machine.answer(p, bytes),
    }
}

/// As `answer`, with what it wrote. It stands apart, since a turn has room for all that a process may write.
#[inline(never)]
fn answer_whole(machine: &mut Machine, p: u16, calls: bool) -> Turn
    requires runs { is_running (wholes machine.old) p ≡ true }
    requires there { has_space machine.old p ≡ true }
    requires none_awaits { (space_in (spaces_of machine.old) p).awaiting ≡ empty }
    requires kept { is_marked machine.old p ≡ has_saved machine.old p }
    ensures answers { AnswersRequest calls p (wholes machine.old) result (wholes machine.new) }
    ensures others { StaysBut p machine.old machine.new }
    ensures pairs { KeepsPairs machine.old machine.new }
{
    let mut buffer = [0; MOST_WRITTEN];
    let room = machine.room_asked(p);
    let bytes = &mut buffer[..room];
    let came = answer(machine, p, calls, bytes);
    came.turn(bytes)
}

/// One instruction of a running process, whose space is there, and what came of it; it may speculate by itself (`calls`) or not. Full exactly
/// where the units after its store, or after the settling of its pages where it begins a speculation, would exceed the limit; then nothing
/// changes but the translations. Takes no memory.
pub fn event(machine: &mut Machine, p: u16, calls: bool) -> Turn
    requires runs { is_running (wholes machine.old) p ≡ true }
    requires there { has_space machine.old p ≡ true }
    requires none_awaits { (space_in (spaces_of machine.old) p).awaiting ≡ empty }
    requires kept { is_marked machine.old p ≡ has_saved machine.old p }
    ensures answers { AnswersAs (λ state. taken_turn calls state p) machine.old result }
    ensures stands { LeadsTo (λ state. after_taken calls state p) machine.old machine.new }
    ensures others { StaysBut p machine.old machine.new }
    ensures pairs { KeepsPairs machine.old machine.new }
{
    match machine.execute(p) {
        Outcome::Stepped => Turn::Stepped,
        Outcome::Asked => answer_whole(machine, p, calls),
        Outcome::Fault(kind, address) => Turn::Faulted(kind, address),
        Outcome::Full(units, limit) => Turn::Full(units, limit),
    }
}
