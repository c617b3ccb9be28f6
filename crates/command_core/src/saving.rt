//! Checkpoints of processes: made with a copy of a space, and put back.

ghost use Rattle.std.specs.Prelude.{◌≡◌, ◌<◌, ◌≤◌, ◌≢◌, None, true, false};
ghost use Rattle.std.specs.Option.{is_some};
ghost use Rattle.std.specs.FinMap.{empty, get};
ghost use Rattle.sizes.specs.declared.TheConstants.{LAST_SPACE};
ghost use Rattle.space_maps.specs.Spaces.{space_in};
ghost use Rattle.machine_core.specs.Machine.{has_space, spaces_of};
ghost use Rattle.report_text.specs.Answers.{IsCheckpointName};
ghost use Rattle.command_core.specs.Copies.{CopiesProcess, GivesNumber};
ghost use Rattle.command_core.specs.Checkpoints.{Enters, SavesSpace, checkpoint_refusals};
ghost use Rattle.command_core.specs.Kept.{EntersName, kept_named};

use crate::checkpoints::Checkpoints;
use fork_checkpoint::{fork_space, restore_space};
use machine_core::{Machine, Process, SpaceError};
use ovl_io::Bytes;
use report_text::Code;
use std::alloc::Global;

/// The number of a checkpoint of a process that is there, which is the next one; or why it isn't made, before its units are counted.
pub(crate) fn checkpoint_number(
    speculating: bool,
    taken: bool,
    next: Option<u16>,
) -> Result<u16, Code>
    ensures { GivesNumber (checkpoint_refusals speculating taken next) next result }
{
    if speculating {
        Err(Code::Speculating)
    } else if taken {
        Err(Code::NameTaken)
    } else {
        match next {
            Some(q) => Ok(q),
            None => Err(Code::NumbersUsed),
        }
    }
}

/// Enters space `q`, which was just made, under a name, with the registers and the state of a process; answers a copy of the name.
/// After want of memory the space is gone.
pub(crate) fn enter_or_drop(
    alloc: Global,
    machine: &mut Machine,
    checkpoints: &mut Checkpoints,
    q: u16,
    process: Process,
    name: &Bytes,
) -> Result<Bytes, SpaceError>
    requires space { has_space machine.old q ≡ true }
    requires none_awaits { (space_in (spaces_of machine.old) q).awaiting ≡ empty }
    requires free { get machine.old.processes q ≡ None }
    requires named { IsCheckpointName name.now }
    requires absent { kept_named name.now checkpoints.old ≡ None }
    ensures enters { Enters q machine.old machine.new result }
    ensures kept { EntersName name.now q process checkpoints.old checkpoints.new result }
{
    match checkpoints.enter(alloc, name, q, process) {
        Ok(told) => Ok(told),
        Err(_) => {
            machine.drop_space(q);
            Err(SpaceError::Memory)
        }
    }
}

/// Makes space `q`, from 1 to 32767, with a copy of space `p`, which is there, isn't speculating, and of which no page awaits, and
/// enters it under a name that no checkpoint has, with the registers and the state of a process; answers a copy of the name. Full
/// exactly where the units after it would exceed the limit; then nothing changes. After want of memory there are the spaces,
/// processes and checkpoints that there were.
pub(crate) fn save_process(
    alloc: Global,
    machine: &mut Machine,
    checkpoints: &mut Checkpoints,
    p: u16,
    q: u16,
    process: Process,
    name: &Bytes,
) -> Result<Bytes, SpaceError>
    requires there { has_space machine.old p ≡ true }
    requires none_awaits { (space_in (spaces_of machine.old) p).awaiting ≡ empty }
    requires unmarked { (space_in (spaces_of machine.old) p).speculating ≡ false }
    requires number { (0 < q) × (q ≤ LAST_SPACE) }
    requires no_space { has_space machine.old q ≡ false }
    requires no_process { get machine.old.processes q ≡ None }
    requires named { IsCheckpointName name.now }
    requires absent { kept_named name.now checkpoints.old ≡ None }
    ensures saves { SavesSpace p q machine.old machine.new result }
    ensures kept { EntersName name.now q process checkpoints.old checkpoints.new result }
{
    match fork_space(machine.memory_mut(), p, q) {
        Ok(()) => enter_or_drop(alloc, machine, checkpoints, q, process, name),
        Err(error) => Err(error),
    }
}

/// Makes process `p`, which is there, this one, with a copy of space `q` in the place of its own. Both spaces are there, neither is
/// speculating, and no page of either awaits. Full exactly where the units after it would exceed the limit; then nothing changes.
/// After want of memory everything is as before.
pub(crate) fn restore_process(
    machine: &mut Machine,
    q: u16,
    p: u16,
    process: Process,
) -> Result<(), SpaceError>
    requires differ { q ≢ p }
    requires saved { has_space machine.old q ≡ true }
    requires none_awaits { (space_in (spaces_of machine.old) q).awaiting ≡ empty }
    requires unmarked { (space_in (spaces_of machine.old) q).speculating ≡ false }
    requires there { has_space machine.old p ≡ true }
    requires none_of_own_awaits { (space_in (spaces_of machine.old) p).awaiting ≡ empty }
    requires own_unmarked { (space_in (spaces_of machine.old) p).speculating ≡ false }
    requires found { is_some (get machine.old.processes p) ≡ true }
    ensures { CopiesProcess (Some p) q p process machine.old machine.new result }
{
    match restore_space(machine.memory_mut(), q, p) {
        Ok(()) => {
            machine.set_process(p, process);
            Ok(())
        }
        Err(unmade) => Err(unmade),
    }
}
