//! Turns of several processes that may speculate by themselves, by a list of their numbers.

ghost use Rattle.std.specs.Prelude.{◌≡◌};
ghost use Rattle.machine_core.specs.Machine.{AreLike, wholes};
ghost use Rattle.self_speculation.specs.Requests.{KeepsPairs};
ghost use Rattle.process_runs.specs.Places.{HavePairs, KeepsAllPerms, KeepsFree, NoPageAwaits, OwnSpaces};
ghost use Rattle.process_runs.specs.Played.{AreOwnCalledTurns, after_number, run_over};

use crate::taking::take_event;
use machine_core::Machine;

/// A turn of a number: one instruction where its process is running, and else nothing.
fn turn(machine: &mut Machine, p: u16)
    requires spaces { OwnSpaces machine.old }
    requires awaits { NoPageAwaits machine.old }
    requires pairs { HavePairs machine.old }
    ensures after { AreLike (wholes machine.new) (after_number p (wholes machine.old)) }
    ensures kept { KeepsPairs machine.old machine.new }
    ensures free { KeepsFree machine.old machine.new }
    ensures perms { KeepsAllPerms machine.old machine.new }
{
    if machine.is_running(p) {
        let _ = take_event(machine, p, true);
    }
}

/// Takes one turn of each number, in order, and passes over those that aren't running then. So each process is its own turns: what as many of its
/// own as weren't answered Full make of it, with what is kept of it, whatever others did between. Takes no memory.
pub fn play(machine: &mut Machine, turns: &[u16])
    requires spaces { OwnSpaces machine.old }
    requires awaits { NoPageAwaits machine.old }
    requires pairs { HavePairs machine.old }
    ensures plays { AreLike (wholes machine.new) (run_over turns.now (wholes machine.old)) }
    ensures own { AreOwnCalledTurns turns.now (wholes machine.old) (wholes machine.new) }
    ensures kept { KeepsPairs machine.old machine.new }
    ensures free { KeepsFree machine.old machine.new }
    ensures perms { KeepsAllPerms machine.old machine.new }
{
    let mut i = 0;
    'playing: while i < turns.len() {
        turn(machine, turns[i]);
        i += 1;
    }
}
