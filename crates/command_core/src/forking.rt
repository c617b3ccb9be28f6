//! A process under a second number, with a copy of its space.

ghost use Rattle.std.specs.Prelude.{◌≡◌, ◌<◌, ◌≤◌, None, true, false};
ghost use Rattle.std.specs.FinMap.{empty, get};
ghost use Rattle.sizes.specs.declared.TheConstants.{LAST_SPACE};
ghost use Rattle.space_maps.specs.Spaces.{space_in};
ghost use Rattle.machine_core.specs.Machine.{has_space, spaces_of};
ghost use Rattle.command_core.specs.Copies.{Adopts, CopiesProcess, GivesNumber, fork_refusals};

use fork_checkpoint::fork_space;
use machine_core::{Machine, Process, SpaceError};
use ovl_io::ProcessState;
use report_text::Code;

/// The number of a fork of a process that is there, which is the next one; or why it isn't made, before its units are counted.
pub(crate) fn fork_number(
    state: ProcessState,
    speculating: bool,
    next: Option<u16>,
) -> Result<u16, Code>
    ensures { GivesNumber (fork_refusals state speculating next) next result }
{
    match state {
        ProcessState::Running => {
            if speculating {
                Err(Code::Speculating)
            } else {
                match next {
                    Some(q) => Ok(q),
                    None => Err(Code::NumbersUsed),
                }
            }
        }
        ProcessState::Exited(_) | ProcessState::Faulted(_, _) => Err(Code::Ended),
    }
}

/// Gives space `q`, which was just made, a process. After want of memory the space is gone.
fn adopt_or_drop(machine: &mut Machine, q: u16, process: Process) -> Result<(), SpaceError>
    requires space { has_space machine.old q ≡ true }
    requires none_awaits { (space_in (spaces_of machine.old) q).awaiting ≡ empty }
    requires absent { get machine.old.processes q ≡ None }
    ensures { Adopts q process machine.old machine.new result }
{
    match machine.adopt(q, process) {
        Ok(()) => Ok(()),
        Err(_) => {
            machine.drop_space(q);
            Err(SpaceError::Memory)
        }
    }
}

/// Makes process `q`, from 1 to 32767, of process `p`: with the same registers, and with a copy of its space, which is there, isn't
/// speculating, and of which no page awaits. Full exactly where the units after it would exceed the limit; then nothing changes.
/// After want of memory the machine has the spaces and processes that it had.
pub(crate) fn fork_process(
    machine: &mut Machine,
    p: u16,
    q: u16,
    process: Process,
) -> Result<(), SpaceError>
    requires there { has_space machine.old p ≡ true }
    requires none_awaits { (space_in (spaces_of machine.old) p).awaiting ≡ empty }
    requires unmarked { (space_in (spaces_of machine.old) p).speculating ≡ false }
    requires number { (0 < q) × (q ≤ LAST_SPACE) }
    requires no_space { has_space machine.old q ≡ false }
    requires no_process { get machine.old.processes q ≡ None }
    ensures { CopiesProcess None p q process machine.old machine.new result }
{
    match fork_space(machine.memory_mut(), p, q) {
        Ok(()) => adopt_or_drop(machine, q, process),
        Err(error) => Err(error),
    }
}
