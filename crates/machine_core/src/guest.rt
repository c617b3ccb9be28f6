//! What a process asks for.

ghost use Rattle.std.specs.Prelude.{◌≡◌, ℕ, List, length, true};
ghost use Rattle.rv_execute.specs.Registers.{with_register};
ghost use Rattle.rv_execute.specs.Step.{exit, request, write, write_count};
ghost use Rattle.overlay_pages.specs.State.{memory_of};
ghost use Rattle.overlay_memory.specs.View.{state_of, translations_of};
ghost use Rattle.translation_cache.specs.Counted.{counted};
ghost use Rattle.space_maps.specs.Spaces.{holds_space};
ghost use Rattle.machine_core.specs.Turns.{answered_by};
ghost use Rattle.machine_core.specs.BareTurns.{bytes_asked, turn_with};

use crate::bare_turn::BareTurn;
use crate::process::Process;
use bitflags::Flags;
use overlay_memory::OverlayMemory;
use ovl_io::{Perms, ProcessState};
use rv_execute::Regs;
use sizes::MOST_WRITTEN;

/// The requests that there are, by their numbers in a7: those of Linux for RISC-V.
const WRITE: u64 = 64;

const EXIT: u64 = 93;

const EXIT_GROUP: u64 = 94;

const PROCESS_NUMBER: u64 = 172;

/// What a write to another descriptor than 1 and 2 answers: -9.
const BAD_DESCRIPTOR: u64 = u64::MAX - 8;

/// What a write of bytes that may not be read answers: -14.
const BAD_ADDRESS: u64 = u64::MAX - 13;

/// What a request that there is none of answers: -38.
const NO_SUCH_REQUEST: u64 = u64::MAX - 37;

/// How many bytes a request may write: a write as many as it asks for, up to the most, and any other none.
#[inline]
pub(crate) fn bytes_asked(regs: &Regs) -> usize
    ensures { result ≡ bytes_asked regs.now }
{
    if regs.get(17) == WRITE {
        regs.get(12).min(MOST_WRITTEN as u64) as usize
    } else {
        0
    }
}

/// Gives a request its answer, in a0.
#[inline]
fn answer(process: &mut Process, value: u64) -> BareTurn
    ensures turn { result ≡ BareTurn.Stepped }
    ensures after { process.new
        ≡ record { regs = with_register process.old.regs 10 value; state = process.old.state; saved = process.old.saved } }
{
    process.regs.set(10, value);
    BareTurn::Stepped
}

/// Prints bytes of space `p`, which is there, by way of room for as many as one write prints.
fn write(process: &mut Process, memory: &mut OverlayMemory, p: u16, bytes: &mut [u8]) -> BareTurn
    requires runs { process.old.state ≡ ProcessState.Running }
    requires there { holds_space (state_of memory.old) p ≡ true }
    requires room { length bytes.old ≡ write_count process.old.regs }
    ensures turn { turn_with result bytes.new ≡ (write process.old.regs (memory_of (state_of memory.old) p)).turn }
    ensures after { process.new
        ≡ answered_by process.old.saved (write process.old.regs (memory_of (state_of memory.old) p)) }
    ensures same { state_of memory.new ≡ state_of memory.old }
    ensures lists { translations_of memory.new ≡ counted p (memory_of (state_of memory.old) p)
        (write process.old.regs (memory_of (state_of memory.old) p)).accesses (translations_of memory.old) }
{
    let descriptor = process.regs.get(10);
    if descriptor != 1 && descriptor != 2 {
        return answer(process, BAD_DESCRIPTOR);
    }
    let count = bytes.len() as u64;
    if count == 0 {
        return answer(process, 0);
    }
    match memory.load(p, process.regs.get(11), bytes, Perms::R) {
        Ok(()) => {
            process.regs.set(10, count);
            BareTurn::Wrote(descriptor as u8)
        }
        Err(_) => answer(process, BAD_ADDRESS),
    }
}

/// Exits with the low 8 bits of a0.
fn exit(process: &mut Process) -> BareTurn
    ensures turn { (bytes : List ℕ) → turn_with result bytes ≡ (exit process.old.regs).turn }
    ensures after { process.new ≡ answered_by process.old.saved (exit process.old.regs) }
{
    let code = (process.regs.get(10) % 256) as u8;
    process.state = ProcessState::Exited(code);
    BareTurn::Exited(code)
}

/// Does what ECALL asked for, as process `p`, whose space is there. The bytes of a write come into the room that there is for them.
pub(crate) fn answer_request(
    process: &mut Process,
    memory: &mut OverlayMemory,
    p: u16,
    bytes: &mut [u8],
) -> BareTurn
    requires runs { process.old.state ≡ ProcessState.Running }
    requires there { holds_space (state_of memory.old) p ≡ true }
    requires room { length bytes.old ≡ bytes_asked process.old.regs }
    ensures turn { turn_with result bytes.new ≡ (request p process.old.regs (memory_of (state_of memory.old) p)).turn }
    ensures after { process.new
        ≡ answered_by process.old.saved (request p process.old.regs (memory_of (state_of memory.old) p)) }
    ensures same { state_of memory.new ≡ state_of memory.old }
    ensures lists { translations_of memory.new ≡ counted p (memory_of (state_of memory.old) p)
        (request p process.old.regs (memory_of (state_of memory.old) p)).accesses (translations_of memory.old) }
{
    match process.regs.get(17) {
        WRITE => write(process, memory, p, bytes),
        EXIT => exit(process),
        EXIT_GROUP => exit(process),
        PROCESS_NUMBER => answer(process, u64::from(p)),
        _ => answer(process, NO_SUCH_REQUEST),
    }
}
