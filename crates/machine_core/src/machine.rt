//! The machine: processes by number.

ghost use Rattle.std.specs.Prelude.{◌≡◌, ◌<◌, ◌≤◌, [], length, true, false, slice_get, IfOk, None, Some, OnOk, OnErr};
ghost use Rattle.std.specs.Borrow.{Lends, sem};
ghost use Rattle.std.specs.FinMap as map;
ghost use Rattle.std.specs.List.{All};
ghost use Rattle.std.specs.List.Sorted.{IsStrictlyIncreasing};
ghost use Rattle.std.specs.Option.{MatchOption, is_some, option_copied};
ghost use Rattle.sizes.specs.declared.TheConstants.{LAST_SPACE, MOST_FRAMES, MOST_WRITTEN};
ghost use Rattle.elf_loader.specs.Image.{IsImageOf};
ghost use Rattle.overlay_pages.specs.Calls.{IsEmptyState};
ghost use Rattle.translation_cache.specs.Translations.{no_translations};
ghost use Rattle.machine_core.specs.Machine.{AnswersAs, AreLike, HaveSpaces, IsDropped, KeepsPlaces, LeadsTo, StaysBut, has_saved, has_space, is_marked, is_running, keys_from, lists_of, registers_at, registers_shown, running_numbers, shown_at, spaces_of, wholes, with_extension, with_extension_at, with_memory, with_process_at, without_memory, without_process, without_process_at};
ghost use Rattle.machine_core.specs.Turns.{after_asked, after_execution, after_turn, came_to, turn_asked, turn_of};
ghost use Rattle.machine_core.specs.Executions.{after_executions, came_to_last, steps_to, stops_in};
ghost use Rattle.machine_core.specs.BareTurns.{room_asked, turn_with};
ghost use Rattle.machine_core.specs.Ample.{IsAmplyTaken};
ghost use Rattle.machine_core.specs.Play.{AreOwnTurns, after_number, run_over};
ghost use Rattle.machine_core.specs.Load.{IsAsBefore, IsLoaded, Loads, LoadsAs, is_load_full, page_count, with_loaded};
ghost use Rattle.machine_core.specs.contracts.machine.Machine.{the_row};
ghost use Rattle.overlay_memory.specs.View.{NoneAwaits};
ghost use Rattle.overlay_memory.specs.contracts.memory.OverlayMemory as memory;

use crate::bare_turn::BareTurn;
use crate::keeping::{adopt, answer_turn, execute_turns, remove, room_in, runs_in, set};
use crate::load::{load_space, stored_in};
use crate::process::Process;
use ascending_numbers::AscendingNumbers;
use breakpoints::Addresses;
use by_number::ByNumber;
use decoded_lines::DecodedLines;
use elf_loader::Image;
use overlay_memory::{OverlayMemory, SpaceError};
use ovl_io::{ProcessState, Turn};
use rv_execute::{Outcome, Regs};
use rv_mul::Instructions;
use sizes::{FRAME_UNITS, MOST_WRITTEN, STACK_PAGES, STACK_POINTER};
use std::alloc::{AllocError, Global};
use std::marker::Model;

/// The memories of spaces by number, and processes by number, each with the space of its own number.
#[derive(Drop)]
pub struct Machine {
    memory: OverlayMemory,
    processes: ByNumber<Process>,
    running: AscendingNumbers,
    extension: bool,
    // decoded without extension M, and with it: those that aren't asked for cost their memory alone
    base_lines: DecodedLines<Instructions<false>>,
    extension_lines: DecodedLines<Instructions<true>>,
}

impl Model for Machine {
    ghost use Rattle.machine_core.specs.Machine.{Machine};
    ghost use Rattle.machine_core.specs.Codes.{machine_code};

    ghost Value = { Machine };

    ghost coded = { machine_code };

    ghost use Rattle.machine_core.specs.Kept.{machine_of, IsRunningList};

    ghost view = { λ m. machine_of m.extension m.memory m.processes };

    ghost invariant = { λ m. IsRunningList m.processes m.running };
}

impl Machine {
    /// A machine without a space and without a process, of 1 to 65,536 frames, without extension M. Takes all the memory that frames and overlays ever
    /// need, or answers the want of it.
    pub fn new(alloc: Global, frames: u32) -> Result<Machine, AllocError>
        requires some { 0 < frames }
        requires few { frames ≤ MOST_FRAMES }
        ensures spaces { IfOk result (λ machine. IsEmptyState frames (spaces_of machine)) }
        ensures processes { IfOk result (λ machine. machine.processes ≡ map.empty) }
        ensures lists { IfOk result (λ machine. lists_of machine ≡ no_translations) }
        ensures extension { IfOk result (λ machine. machine.extension ≡ false) }
    {
        Ok(Machine {
            memory: OverlayMemory::new(alloc, frames)?,
            processes: ByNumber::new(alloc),
            running: AscendingNumbers::new(alloc),
            extension: false,
            base_lines: DecodedLines::new(alloc)?,
            extension_lines: DecodedLines::new(alloc)?,
        })
    }

    /// Has extension M (multiplication and division) from now on, or has it not: without it, as at the start, its words are no
    /// instructions. Nothing else changes. Takes no memory.
    pub fn set_extension(&mut self, on: bool)
        ensures set { self.new ≡ with_extension_at self.old on }
        ensures after { wholes self.new ≡ with_extension on (wholes self.old) }
        ensures stands { LeadsTo (with_extension on) self.old self.new }
    {
        self.extension = on;
    }

    /// Makes space `p` and process `p`, from 1 to 32767, of the file that `image` was read from: running, at its entry. Pages that
    /// the file stores get a frame of their own each, all others and the stack are zero pages. Answers how many pages it has. Full
    /// exactly where the units after it would exceed the limit; then nothing changes. After want of memory the machine has the
    /// spaces and processes that it had.
    pub fn load(&mut self, p: u16, image: &Image, file: &[u8]) -> Result<u32, SpaceError>
        requires number { (0 < p) × (p ≤ LAST_SPACE) }
        requires no_space { has_space self.old p ≡ false }
        requires no_process { map.get self.old.processes p ≡ None }
        requires of_file { IsImageOf file.now image.now }
        ensures loads { Loads p file.now self.old self.new result }
        ensures stands { LoadsAs p file.now self.old self.new result }
        ensures others { StaysBut p self.old self.new }
    {
        let needed = self.memory.units() + FRAME_UNITS * stored_in(image.pages());
        if let Some(shortage) = self.memory.shortage(needed) {
            return Err(SpaceError::Full(shortage.needed, shortage.limit));
        }
        match self.make(p, image, file) {
            Ok(()) => Ok(image.pages().len() as u32 + STACK_PAGES as u32),
            Err(AllocError) => Err(SpaceError::Memory),
        }
    }

    /// Makes space `p` and process `p`, for which there are units enough.
    fn make(&mut self, p: u16, image: &Image, file: &[u8]) -> Result<(), AllocError>
        requires number { (0 < p) × (p ≤ LAST_SPACE) }
        requires no_space { has_space self.old p ≡ false }
        requires no_process { map.get self.old.processes p ≡ None }
        requires of_file { IsImageOf file.now image.now }
        requires fits { is_load_full p file.now (wholes self.old) ≡ false }
        ensures made { OnOk result (IsLoaded p file.now self.old self.new) }
        ensures kept { OnErr result (IsAsBefore self.old self.new) }
    {
        let process = Process {
            regs: Regs::new(image.entry(), STACK_POINTER),
            state: ProcessState::Running,
            saved: None,
        };
        load_space(&mut self.memory, p, image, file)?;
        match adopt(&mut self.processes, &mut self.running, p, process) {
            Ok(()) => Ok(()),
            Err(AllocError) => {
                self.memory.drop_space(p);
                Err(AllocError)
            }
        }
    }

    /// Gives a process to space `p`, which is there and has none. After want of memory the machine is as before.
    pub fn adopt(&mut self, p: u16, process: Process) -> Result<(), AllocError>
        requires space { has_space self.old p ≡ true }
        requires absent { map.get self.old.processes p ≡ None }
        ensures ok { OnOk result (self.new ≡ with_process_at self.old p process) }
        ensures err { OnErr result (self.new ≡ self.old) }
    {
        adopt(&mut self.processes, &mut self.running, p, process)
    }

    /// What is shown of a process, which is all but its memory; none exactly where there is no process of that number. What is
    /// saved of it is that of the whole that is kept, where its space is marked exactly where something is saved.
    pub fn process(&self, p: u16) -> Option<&Process>
        ensures kept { option_copied result ≡ map.get self.now.processes p }
        ensures registers { registers_shown (option_copied result) ≡ registers_at (wholes self.now) p }
        ensures registers_stand { AnswersAs (λ state. registers_at state p) self.now
            (registers_shown (option_copied result)) }
        ensures shown { is_marked self.now p ≡ has_saved self.now p
            → option_copied result ≡ shown_at (wholes self.now) p }
        ensures stands { is_marked self.now p ≡ has_saved self.now p
            → AnswersAs (λ state. shown_at state p) self.now (option_copied result) }
    {
        self.processes.get(p)
    }

    /// Puts a process in the place of process `p`, which is there. Takes no memory.
    pub fn set_process(&mut self, p: u16, process: Process)
        requires there { is_some (map.get self.old.processes p) ≡ true }
        ensures { self.new ≡ with_process_at self.old p process }
    {
        set(&mut self.processes, &mut self.running, p, process);
    }

    /// Takes away process `p`, which is there. Its space stays.
    pub fn remove(&mut self, p: u16)
        requires there { is_some (map.get self.old.processes p) ≡ true }
        ensures removed { self.new ≡ without_process_at self.old p }
        ensures after { wholes self.new ≡ without_process p (wholes self.old) }
        ensures stands { LeadsTo (without_process p) self.old self.new }
    {
        remove(&mut self.processes, &mut self.running, p);
    }

    /// Takes away space `p`, which is there, of which no page awaits being shared, and which has no process; gives up its pages.
    pub fn drop_space(&mut self, p: u16)
        requires space { has_space self.old p ≡ true }
        requires none_awaits { NoneAwaits (spaces_of self.old) p }
        requires no_process { map.get self.old.processes p ≡ None }
        ensures dropped { IsDropped p self.old self.new }
        ensures stands { LeadsTo (without_memory p) self.old self.new }
    {
        self.memory.drop_space(p);
    }

    /// The memories of all spaces.
    pub fn memory(&self) -> &OverlayMemory
        ensures { result.now ≡ self.now.memory }
    {
        &self.memory
    }

    /// The memories of all spaces, lent.
    pub fn memory_mut(&mut self) -> &mut OverlayMemory
        ensures* writes_back { sem 𝓛 (Lends the_row memory.the_row self.entry result (with_memory self.old)) }
        ensures value { result.now ≡ self.old.memory }
    {
        &mut self.memory
    }

    /// Whether there is a process of that number, and it runs.
    pub fn is_running(&self, p: u16) -> bool
        ensures running { result ≡ is_running (wholes self.now) p }
        ensures stands { AnswersAs (λ state. is_running state p) self.now result }
    {
        runs_in(&self.processes, p)
    }

    /// The numbers of the processes that run, ascending. They are kept, not looked for.
    pub fn running(&self) -> &[u16]
        ensures numbers { result.now ≡ running_numbers (wholes self.now) }
        ensures ascending { IsStrictlyIncreasing result.now }
        ensures each { All (λ p. is_running (wholes self.now) p ≡ true) result.now }
        ensures stands { AnswersAs running_numbers self.now result.now }
    {
        self.running.as_slice()
    }

    /// The least number of a process, of those that aren't below `from`; none exactly where there is none. Looks at the
    /// numbers from there on, one after the other.
    pub fn next_process(&self, from: u16) -> Option<u16>
        ensures { MatchOption result (keys_from from (wholes self.now) ≡ [])
            (λ p. slice_get (keys_from from (wholes self.now)) 0 ≡ Some p) }
    {
        self.processes.next_from(from)
    }

    /// Executes up to so many instructions of a running process, whose space is there, as long as each is a step and leaves the pc
    /// at none of some addresses, but not what the last one asks for where it is ECALL: that is left to `answer`. The pc at which
    /// it starts stops nothing. Answers how many were steps, and what came of the last one: `Full` exactly where the units after its store would exceed the limit, and then it isn't done. Looks up the process
    /// once, and the pages of its accesses, and takes no memory.
    #[inline]
    pub fn execute_up_to(&mut self, p: u16, most: u32, stops: Option<&Addresses>) -> (u32, Outcome)
        requires runs { is_running (wholes self.old) p ≡ true }
        requires there { has_space self.old p ≡ true }
        requires none_awaits { NoneAwaits (spaces_of self.old) p }
        ensures counts { AnswersAs (λ state. steps_to (stops_in stops.entry) most state p) self.old result.0 }
        ensures answers { AnswersAs (λ state. came_to_last (stops_in stops.entry) most state p)
            self.old result.1 }
        ensures stands { LeadsTo (λ state. after_executions (stops_in stops.entry) most state p)
            self.old self.new }
        ensures others { StaysBut p self.old self.new }
        ensures places { KeepsPlaces self.old self.new }
    {
        if self.extension {
            return self.execute_extended(p, most, stops);
        }
        execute_turns(
            &mut self.processes,
            &mut self.memory,
            &mut self.running,
            &mut self.base_lines,
            p,
            most,
            stops,
        )
    }

    // Apart, so that the loop over instructions of RV64I is compiled as it would be alone.
    /// As `execute_up_to`, where extension M is there.
    #[inline(never)]
    fn execute_extended(&mut self, p: u16, most: u32, stops: Option<&Addresses>) -> (u32, Outcome)
        requires extension { self.old.extension ≡ true }
        requires runs { is_running (wholes self.old) p ≡ true }
        requires there { has_space self.old p ≡ true }
        requires none_awaits { NoneAwaits (spaces_of self.old) p }
        ensures counts { AnswersAs (λ state. steps_to (stops_in stops.entry) most state p) self.old result.0 }
        ensures answers { AnswersAs (λ state. came_to_last (stops_in stops.entry) most state p)
            self.old result.1 }
        ensures stands { LeadsTo (λ state. after_executions (stops_in stops.entry) most state p)
            self.old self.new }
        ensures others { StaysBut p self.old self.new }
        ensures places { KeepsPlaces self.old self.new }
    {
        execute_turns(
            &mut self.processes,
            &mut self.memory,
            &mut self.running,
            &mut self.extension_lines,
            p,
            most,
            stops,
        )
    }

    /// Executes one instruction of a running process, whose space is there, but not what it asks for where it is ECALL: that is left to `answer`.
    /// `Full` exactly where the units after its store would exceed the limit, and then it isn't done. Takes no memory.
    pub fn execute(&mut self, p: u16) -> Outcome
        requires runs { is_running (wholes self.old) p ≡ true }
        requires there { has_space self.old p ≡ true }
        requires none_awaits { NoneAwaits (spaces_of self.old) p }
        ensures answers { AnswersAs (λ state. came_to state p) self.old result }
        ensures stands { LeadsTo (λ state. after_execution state p) self.old self.new }
        ensures others { StaysBut p self.old self.new }
        ensures places { KeepsPlaces self.old self.new }
    {
        self.execute_up_to(p, 1, None).1
    }

    /// How many bytes what a process asks for by ECALL may write, at most `MOST_WRITTEN`: none where it isn't a write.
    #[inline]
    pub fn room_asked(&self, p: u16) -> usize
        ensures room { result ≡ room_asked (wholes self.now) p }
        ensures few { result ≤ MOST_WRITTEN }
    {
        room_in(&self.processes, p)
    }

    /// Does what a running process, whose space is there, asked for by ECALL, and answers what came of it. The bytes of a write come
    /// into `bytes`, which has room for just as many as it may write. Takes no memory.
    #[inline]
    pub fn answer(&mut self, p: u16, bytes: &mut [u8]) -> BareTurn
        requires runs { is_running (wholes self.old) p ≡ true }
        requires there { has_space self.old p ≡ true }
        requires none_awaits { NoneAwaits (spaces_of self.old) p }
        requires room { length bytes.old ≡ room_asked (wholes self.old) p }
        ensures answers { AnswersAs (λ state. turn_asked state p) self.old (turn_with result bytes.new) }
        ensures stands { LeadsTo (λ state. after_asked state p) self.old self.new }
        ensures others { StaysBut p self.old self.new }
        ensures places { KeepsPlaces self.old self.new }
    {
        answer_turn(
            &mut self.processes,
            &mut self.memory,
            &mut self.running,
            p,
            bytes,
        )
    }

    /// As `answer`, with what it wrote. It stands apart, since a turn has room for all that a process may write.
    #[inline(never)]
    fn answer_whole(&mut self, p: u16) -> Turn
        requires runs { is_running (wholes self.old) p ≡ true }
        requires there { has_space self.old p ≡ true }
        requires none_awaits { NoneAwaits (spaces_of self.old) p }
        ensures answers { AnswersAs (λ state. turn_asked state p) self.old result }
        ensures stands { LeadsTo (λ state. after_asked state p) self.old self.new }
        ensures others { StaysBut p self.old self.new }
        ensures places { KeepsPlaces self.old self.new }
    {
        let mut buffer = [0; MOST_WRITTEN];
        let room = self.room_asked(p);
        let bytes = &mut buffer[..room];
        let came = self.answer(p, bytes);
        came.turn(bytes)
    }

    /// One instruction of a running process, whose space is there, and what came of it: an execution, and then what it asked
    /// for. Full exactly where the units after its store would exceed the limit; then nothing changes. Never full where the frames
    /// are at least one more than twice the pages that all spaces have. Takes no memory.
    pub fn event(&mut self, p: u16) -> Turn
        requires runs { is_running (wholes self.old) p ≡ true }
        requires there { has_space self.old p ≡ true }
        requires none_awaits { NoneAwaits (spaces_of self.old) p }
        ensures answers { AnswersAs (λ state. turn_of state p) self.old result }
        ensures stands { LeadsTo (λ state. after_turn state p) self.old self.new }
        ensures ample { IsAmplyTaken p self.old result }
        ensures others { StaysBut p self.old self.new }
        ensures places { KeepsPlaces self.old self.new }
    {
        match self.execute(p) {
            Outcome::Stepped => Turn::Stepped,
            Outcome::Asked => self.answer_whole(p),
            Outcome::Fault(kind, address) => Turn::Faulted(kind, address),
            Outcome::Full(units, limit) => Turn::Full(units, limit),
        }
    }

    /// A turn of a number: one instruction where its process is running, and else nothing.
    fn turn(&mut self, p: u16)
        requires spaces { HaveSpaces self.old }
        ensures stands { LeadsTo (after_number p) self.old self.new }
        ensures spaces { HaveSpaces self.new }
    {
        if self.is_running(p) {
            let _ = self.event(p);
        }
    }

    /// Takes one turn of each number, in order, and passes over those that aren't running then. The space of each running
    /// process is there. So each process is its own turns: what as many turns of its own make of it as weren't answered Full,
    /// whatever others did between. Takes no memory.
    pub fn play(&mut self, turns: &[u16])
        requires spaces { HaveSpaces self.old }
        ensures stands { LeadsTo (run_over turns.now) self.old self.new }
        ensures own { AreOwnTurns turns.now (wholes self.old) (wholes self.new) }
    {
        let mut i = 0;
        'playing: while i < turns.len() {
            self.turn(turns[i]);
            i += 1;
        }
    }
}
