//! Bytes that are stored in the memory of a process.

ghost use Rattle.std.specs.Prelude.{◌≡◌, ◌≤◌, Some, true, length};
ghost use Rattle.std.specs.FinMap.{empty, get};
ghost use Rattle.sizes.specs.declared.TheConstants.{PAGE_BYTES};
ghost use Rattle.space_maps.specs.Spaces.{space_in};
ghost use Rattle.machine_core.specs.Machine.{has_saved, has_space, is_marked, spaces_of, whole_in};
ghost use Rattle.command_core.specs.Changes.{CanBeTold};
ghost use Rattle.command_core.specs.Debugging.{poke_answer, poke_row};
ghost use Rattle.command_core.specs.Giving.{MachineGives};

use machine_core::{Machine, Process};
use overlay_memory::MemoryError;
use report_text::{Answer, Code};

/// What is answered where bytes aren't stored.
fn not_poked(error: MemoryError) -> Answer
    ensures answer { result ≡ poke_answer error }
    ensures told { CanBeTold result }
{
    match error {
        MemoryError::Unmapped(at) => Answer::Refused(Code::Unmapped(at)),
        MemoryError::Forbidden(at) => Answer::Refused(Code::Forbidden(at)),
        MemoryError::Full(needed, limit) => Answer::Full(needed, limit),
    }
}

/// Stores up to 4096 bytes from an address of process `p` on, whatever its state is. Takes no memory.
pub(crate) fn poke(
    machine: &mut Machine,
    p: u16,
    process: Process,
    address: u64,
    bytes: &[u8],
) -> Answer
    requires there { get machine.old.processes p ≡ Some process }
    requires space { has_space machine.old p ≡ true }
    requires none_awaits { (space_in (spaces_of machine.old) p).awaiting ≡ empty }
    requires kept { is_marked machine.old p ≡ has_saved machine.old p }
    requires few { length bytes.now ≤ PAGE_BYTES }
    ensures done { MachineGives (poke_row p address bytes.now (whole_in (spaces_of machine.old) p process))
        machine.old result machine.new }
    ensures told { CanBeTold result }
{
    match machine.memory_mut().write(p, address, bytes) {
        Ok(()) => {
            // the units are asked for what their contract says alone: that there are enough
            let _ = machine.memory().units();
            Answer::Done
        }
        Err(error) => not_poked(error),
    }
}
