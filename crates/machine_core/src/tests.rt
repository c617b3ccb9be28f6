ghost use Rattle.std.specs.Prelude.{◌≡◌, ◌<◌, ◌≤◌, IfOk, Ok};
ghost use Rattle.sizes.specs.declared.TheConstants.{MOST_FRAMES};
ghost use Rattle.overlay_memory.specs.View.{NoneAwaits};
ghost use Rattle.machine_core.specs.Machine.{spaces_of};

use crate::{Machine, Process, SpaceError};
use elf_loader::read_image;
use ovl_io::{FaultKind, ProcessState, Turn};
use std::alloc::{AllocError, Global};
use std::process::Abort;
use std::test::Fail;

// Where the code of a file stands.
const CODE: u64 = 0x10078;

// addi x17, x0, 93; addi x10, x0, 7; ecall
const EXIT_7: &[u32] = &[0x05D0_0893, 0x0070_0513, 0x0000_0073];

// addi x5, x0, 1; sb x5, 0(x2); and the same at sp - 64, sp - 128 and sp - 192; then exit with 0
const STORES: &[u32] = &[
    0x0010_0293,
    0x0051_0023,
    0xFC51_0023,
    0xF851_0023,
    0xF451_0023,
    0x05D0_0893,
    0x0000_0513,
    0x0000_0073,
];

// A file of one segment with these permissions: words, and so many bytes of zeros behind them.
fn file_of(alloc: Global, flags: u8, words: &[u32], zeros: u16) -> Result<Vec<u8>, AllocError> {
    let size = words.len() as u64 * 4;
    let memory_size = size + u64::from(zeros);
    let mut file = Vec::new(alloc);
    file.extend_from_slice(b"\x7FELF\x02\x01\x01\0\0\0\0\0\0\0\0\0\x02\0\xF3\0\x01\0\0\0")?;
    file.extend_from_slice(b"\x78\0\x01\0\0\0\0\0\x40\0\0\0\0\0\0\0\0\0\0\0\0\0\0\0")?;
    file.extend_from_slice(b"\0\0\0\0\x40\0\x38\0\x01\0\0\0\0\0\0\0")?;
    file.extend_from_slice(&[1, 0, 0, 0, flags, 0, 0, 0])?;
    for number in [120, CODE, CODE, size, memory_size, 4096] {
        file.extend_from_slice(&number.to_le_bytes())?;
    }
    for word in words {
        file.extend_from_slice(&word.to_le_bytes())?;
    }
    Ok(file)
}

// How many pages a load made.
fn pages_of(rt: &impl Abort, loaded: Result<u32, SpaceError>) -> u32
    ensures { loaded ≡ Ok result }
{
    match loaded {
        Ok(pages) => pages,
        Err(_) => panic!(rt; "it isn't loaded"),
    }
}

// A machine of 1 to 65,536 frames in which a file is process 1, of whose pages none awaits, and how many pages that has.
fn loaded(rt: &impl Abort, alloc: Global, frames: u32, file: &[u8]) -> Result<(Machine, u32), Fail>
    requires some { 0 < frames }
    requires few { frames ≤ MOST_FRAMES }
    ensures { IfOk result (λ made. NoneAwaits (spaces_of made.0) 1) }
{
    let image = read_image(alloc, file)?;
    let mut machine = Machine::new(alloc, frames)?;
    let pages = pages_of(rt, machine.load(1, &image, file));
    Ok((machine, pages))
}

// Process 1, as it stands.
fn shown(rt: &impl Abort, machine: &Machine) -> Process {
    match machine.process(1) {
        Some(process) => *process,
        None => panic!(rt; "no process"),
    }
}

// A turn of process 1.
fn event(rt: &impl Abort, machine: &mut Machine) -> Turn
    requires { NoneAwaits (spaces_of machine.old) 1 }
    ensures { NoneAwaits (spaces_of machine.new) 1 }
{
    assert!(rt; machine.is_running(1));
    assert!(rt; machine.memory().has_space(1));
    machine.event(1)
}

#[test]
fn a_store_that_needs_too_many_units_is_full(rt: HostRuntime) -> Result<(), Fail> {
    let file = file_of(rt.alloc(), 5, STORES, 0)?;
    let (mut machine, pages) = loaded(&rt, rt.alloc(), 2, file.as_slice())?;
    assert_eq!(rt; pages, 17);
    assert!(rt; matches!(event(&rt, &mut machine), Turn::Stepped));
    assert!(rt; matches!(event(&rt, &mut machine), Turn::Full(33, 32)));
    assert_eq!(rt; machine.memory().units(), 32);
    let process = shown(&rt, &machine);
    assert_eq!(rt; process.regs.pc(), CODE + 4);
    assert_eq!(rt; process.state, ProcessState::Running);
    Ok(())
}

#[test]
fn a_load_that_needs_too_many_units_is_full(rt: HostRuntime) -> Result<(), Fail> {
    let file = file_of(rt.alloc(), 5, EXIT_7, 0)?;
    let image = read_image(rt.alloc(), file.as_slice())?;
    let mut machine = Machine::new(rt.alloc(), 1)?;
    assert_eq!(rt;
        machine.load(1, &image, file.as_slice()),
        Err(SpaceError::Full(32, 16))
    );
    assert!(rt; machine.process(1).is_none());
    assert_eq!(rt; machine.memory().units(), 16);
    Ok(())
}

// addi x10, x0, 6; addi x11, x0, 7; mul x10, x10, x11; addi x17, x0, 93; ecall
const MULTIPLIES: &[u32] = &[
    0x0060_0513,
    0x0070_0593,
    0x02B5_0533,
    0x05D0_0893,
    0x0000_0073,
];

// What the third instruction of a file comes to, which is a word of extension M.
fn third_turn(rt: &impl Abort, alloc: Global, extension: bool) -> Result<(Machine, Turn), Fail>
    ensures { IfOk result (λ made. NoneAwaits (spaces_of made.0) 1) }
{
    let file = file_of(alloc, 5, MULTIPLIES, 0)?;
    let (mut machine, _) = loaded(rt, alloc, 1024, file.as_slice())?;
    machine.set_extension(extension);
    event(rt, &mut machine);
    event(rt, &mut machine);
    let turn = event(rt, &mut machine);
    Ok((machine, turn))
}

#[test]
fn a_word_of_extension_m_is_an_instruction_where_that_is_there(
    rt: HostRuntime,
) -> Result<(), Fail> {
    let (_, turn) = third_turn(&rt, rt.alloc(), false)?;
    assert!(rt; matches!(turn, Turn::Faulted(FaultKind::Illegal, 0x10080)));
    let (mut machine, turn) = third_turn(&rt, rt.alloc(), true)?;
    assert!(rt; matches!(turn, Turn::Stepped));
    assert!(rt; matches!(event(&rt, &mut machine), Turn::Stepped));
    assert!(rt; matches!(event(&rt, &mut machine), Turn::Exited(42)));
    Ok(())
}

// lui x5, 0x12; addi x6, x0, -1; sd x6, -4(x5), of which the last 4 bytes lie in a page that isn't there
const CROSSES: &[u32] = &[0x0001_22B7, 0xFFF0_0313, 0xFE62_BE23];

#[test]
fn a_store_that_faults_changes_nothing(rt: HostRuntime) -> Result<(), Fail> {
    let file = file_of(rt.alloc(), 7, CROSSES, 4096)?;
    let (mut machine, pages) = loaded(&rt, rt.alloc(), 1024, file.as_slice())?;
    assert_eq!(rt; pages, 18);
    assert!(rt; matches!(event(&rt, &mut machine), Turn::Stepped));
    assert!(rt; matches!(event(&rt, &mut machine), Turn::Stepped));
    let turn = event(&rt, &mut machine);
    assert!(rt; matches!(turn, Turn::Faulted(FaultKind::Store, 0x12000)));
    let mut bytes = [0xFF; 4];
    assert!(rt; machine.memory().has_space(1));
    assert!(rt; machine.memory().read(1, 0x11FFC, &mut bytes).is_ok());
    assert_eq!(rt; bytes, [0, 0, 0, 0]);
    Ok(())
}

// Process 2 has ended by its third turn, and process 5 has taken one.
fn assert_played(rt: &impl Abort, machine: &Machine) -> Result<(), Fail> {
    assert!(rt; machine.running() == [5].as_slice());
    let first = *machine.process(2).ok_or("no process")?;
    assert_eq!(rt; first.state, ProcessState::Exited(7));
    let second = *machine.process(5).ok_or("no process")?;
    assert_eq!(rt; second.regs.pc(), CODE + 4);
    assert_eq!(rt; machine.next_process(3), Some(5));
    assert_eq!(rt; machine.next_process(6), None);
    Ok(())
}

#[test]
fn processes_take_turns(rt: HostRuntime) -> Result<(), Fail> {
    let file = file_of(rt.alloc(), 5, EXIT_7, 0)?;
    let image = read_image(rt.alloc(), file.as_slice())?;
    let mut machine = Machine::new(rt.alloc(), 1024)?;
    pages_of(&rt, machine.load(5, &image, file.as_slice()));
    pages_of(&rt, machine.load(2, &image, file.as_slice()));
    // 7 isn't there, and 2 has ended when its last turn comes
    machine.play(&[2, 5, 7, 2, 2, 2]);
    assert_played(&rt, &machine)
}
