ghost use Rattle.std.specs.Prelude.{◌≡◌, ◌==◌, ◌+◌, ◌≤◌, ◌<◌, [], None, true, false, length, IfOk, IfSome, OnOk};
ghost use Rattle.script_text.specs.Given.{IsGiven, asks};
ghost use Rattle.report_text.specs.Answers.{IsCheckpointName};
ghost use Rattle.sizes.specs.declared.TheConstants.{ADDRESS_END, LAST_SPACE, MOST_FILE_BYTES, MOST_FRAMES, PAGE_BYTES};
ghost use Rattle.command_core.specs.State.{fresh, registry_of, State, extended};
ghost use Rattle.command_core.specs.Sessions.{AreSettledCounts, KeepsRest, called_session, fresh_session, extended_session};
ghost use Rattle.command_core.specs.Giving.{GivesChange, WantKeeps};
ghost use Rattle.command_core.specs.Deduplication.{dedup_all_row, dedup_row};
ghost use Rattle.command_core.specs.Rows.{registered, still_row};
ghost use Rattle.command_core.specs.Copies.{fork_row};
ghost use Rattle.command_core.specs.ProcessChanges.{IsFineChange, process_row};
ghost use Rattle.command_core.specs.Debugging.{break_row, poke_row, unbreak_row};
ghost use Rattle.command_core.specs.Checkpoints.{checkpoint_row, forget_row, on_checkpoint, restore_row};
ghost use Rattle.command_core.specs.Changes.{CanBeTold, TakesText, answer_of, asm_row, drop_row, load_row, on_process, row_in};
ghost use Rattle.command_core.specs.Images.{ComeBack, Exports, exported_by, import_row};
ghost use Rattle.command_core.specs.Commands.{RunsLoaded};
ghost use Rattle.command_core.specs.Looks.{BeginsStep, CanRead, LooksAt, LooksAtCheckpoint, NextProcess, ReadsBytes, counts_of, look_of, looked_at};
ghost use Rattle.command_core.specs.Ample.{IsAmplyDone};
ghost use Rattle.command_core.specs.Standing.{SessionAnswersAs, GivesAs, HoldsFor, PlaysAs, SessionStandsFor, TurnsAs, begun_run, begun_step, ends_run, speaks, takes_turn};
ghost use Rattle.std.specs.FinMap.{get};
ghost use Rattle.machine_core.specs.Machine.{AreLike};
ghost use Rattle.process_runs.specs.Played.{AreOwnCalledTurns, run_over};
ghost use Rattle.process_runs.specs.Turns.{IsTurnLine, begun_by, lines_left, run_found};

use crate::assembling::not_assembled;
use crate::checkpoints::{Checkpoints, Kept};
use crate::dedup::{dedup_page, dedup_pages};
use crate::forking::{fork_number, fork_process};
use crate::imaging::{ExportError, export_space, import_space, read_delta};
use crate::modes::Modes;
use crate::poking::poke;
use crate::process_changes::{ProcessChange, change_process};
use crate::reading::{can_read, read_bytes};
use crate::saving::{checkpoint_number, restore_process, save_process};
use breakpoints::Breakpoints;
use elf_loader::{ElfError, read_image};
use free_numbers::FreeNumbers;
use machine_core::{Machine, SpaceError};
use ovl_io::{Bytes, ProcessState, Turn};
use process_runs::{Order, Running, begin, next_turn, play, turns_to_line};
use report_text::{Answer, Code, Line};
use round_robin::RoundRobin;
use rv_asm::assemble;
use rv_execute::Regs;
use script_text::Command;
use std::alloc::{AllocError, Global};
use std::marker::Model;

/// A process, as the commands that print it see it.
#[derive(Clone, Copy, Debug)]
pub struct ProcessView {
    pub regs: Regs,
    pub state: ProcessState,
    /// Whether it is speculating.
    pub speculating: bool,
    /// How many pages it has.
    pub pages: u32,
}

/// A checkpoint, as the commands that print it see it.
#[derive(Clone, Copy, Debug)]
pub struct CheckpointView<'a> {
    pub name: &'a Bytes,
    /// The number of its space.
    pub space: u16,
    /// How many pages it has.
    pub pages: u32,
}

/// What is counted over all processes and checkpoints.
#[derive(Clone, Copy, Debug)]
pub struct Counts {
    /// The units of their pages, in use.
    pub units: u32,
    /// How many units there may be: 16 for each frame.
    pub limit: u32,
    /// The own lines of their pages.
    pub lines: u32,
    /// The translations that were there, and those that weren't.
    pub hits: u64,
    pub misses: u64,
}

/// Processes by number, checkpoints by name, breakpoints, what commands do to them, and what is fixed for the whole run.
#[derive(Drop)]
pub struct Session {
    alloc: Global,
    machine: Machine,
    checkpoints: Checkpoints,
    breakpoints: Breakpoints,
    numbers: FreeNumbers,
    modes: Modes,
}

impl Model for Session {
    ghost use Rattle.std.specs.Prelude.{◌≤◌};
    ghost use Rattle.command_core.specs.Sessions.{InSession, IsSession, AreBreaksOf};
    ghost use Rattle.command_core.specs.Kept.{shown_session, spaces_kept};
    ghost use Rattle.command_core.specs.Codes.{session_code};

    ghost Value = { InSession };

    ghost coded = { session_code };

    ghost view = { λ s. shown_session s.machine s.checkpoints s.breakpoints s.modes };

    ghost invariant = { λ s. IsSession s.machine (spaces_kept s.checkpoints) s.numbers
        × (1 ≤ s.modes.quantum) × AreBreaksOf s.machine s.breakpoints };
}

/// What a load or a copy that wasn't done answers.
fn not_made(error: SpaceError) -> Answer
    ensures { result ≡ answer_of error }
{
    match error {
        SpaceError::Full(units, limit) => Answer::Full(units, limit),
        SpaceError::Memory => Answer::Memory,
    }
}

/// A checkpoint of so many pages, as it is shown.
fn view_of(kept: &Kept, pages: u32) -> CheckpointView<'_>
    ensures name { result.name.now ≡ kept.now.name }
    ensures space { result.space ≡ kept.now.space }
    ensures pages { result.pages ≡ pages }
{
    CheckpointView {
        name: &kept.name,
        space: kept.space,
        pages,
    }
}

impl Session {
    /// A session without a process, of 1 to 65,536 frames, whose turns have this quantum: 1 or more; and without extension M.
    pub fn new(alloc: Global, frames: u32, quantum: u32) -> Result<Session, AllocError>
        requires some { 0 < frames }
        requires few { frames ≤ MOST_FRAMES }
        requires quantum { 1 ≤ quantum }
        ensures session { IfOk result (λ session. session ≡ fresh_session
            (record { frames = frames; quantum = quantum; extension = false; calls = false }) session.free_blocks) }
        ensures stands { IfOk result (λ session. SessionStandsFor session
            (fresh (record { frames = frames; quantum = quantum; extension = false; calls = false }))) }
    {
        Ok(Session {
            alloc,
            machine: Machine::new(alloc, frames)?,
            checkpoints: Checkpoints::new(alloc),
            breakpoints: Breakpoints::new(alloc),
            numbers: FreeNumbers::new(alloc)?,
            modes: Modes {
                frames,
                quantum,
                extension: false,
                calls: false,
            },
        })
    }

    /// Has extension M (multiplication and division) from now on, or has it not: turns and printed instructions go by it. Nothing else
    /// changes. Takes no memory.
    pub fn set_extension(&mut self, on: bool)
        ensures set { self.new ≡ extended_session on self.old }
        ensures stands { (state : State) → SessionStandsFor self.old state
            → SessionStandsFor self.new (extended on state) }
    {
        self.machine.set_extension(on);
        self.modes.extension = on;
    }

    /// Processes may speculate by themselves from now on, or may not: turns go by it. Nothing else changes. Takes no memory.
    pub fn set_calls(&mut self, on: bool)
        ensures set { self.new ≡ called_session on self.old }
        ensures stands { (state : State) → SessionStandsFor self.old state → SessionStandsFor self.new state }
    {
        self.modes.calls = on;
    }

    /// Whether there is extension M.
    pub fn has_extension(&self) -> bool
        ensures { result ≡ self.now.modes.extension }
    {
        self.modes.extension
    }

    /// Makes a process of a file, under the next number: `Loaded`, or why not. `Full` exactly where the file is taken, a number is
    /// left and the units after the load would exceed the limit; never where the frames are at least one more than twice the pages
    /// that all spaces would have. After want of memory everything is as before.
    pub fn load(&mut self, file: &[u8]) -> Answer
        ensures gives { GivesChange (load_row file.now (registry_of self.old.state)) self.old.state
            result self.new.state }
        ensures stands { GivesAs (registered (load_row file.now)) self.old result self.new }
        ensures ample { IsAmplyDone (registered (load_row file.now)) self.old result }
        ensures want { WantKeeps self.old result self.new }
        ensures told { CanBeTold result }
        ensures runs { RunsLoaded result self.new.state }
        ensures modes { self.new.modes ≡ self.old.modes }
    {
        let image = match read_image(self.alloc, file) {
            Ok(image) => image,
            Err(ElfError::Memory) => return Answer::Memory,
            Err(error) => return Answer::Refused(Code::Elf(error)),
        };
        let p = match self.numbers.least() {
            None => return Answer::Refused(Code::NumbersUsed),
            Some(p) => p,
        };
        match self.machine.load(p, &image, file) {
            Ok(pages) => {
                self.numbers.take(p);
                Answer::Loaded(p, pages, image.entry())
            }
            Err(error) => not_made(error),
        }
    }

    /// Assembles a text of at most 16 MiB, and makes a process of its file, under the next number: `Loaded`, or why not. The file itself is never
    /// refused. `Full` as for a load. After want of memory everything is as before.
    pub fn assemble(&mut self, text: &[u8]) -> Answer
        requires { length text.now ≤ MOST_FILE_BYTES }
        ensures gives { GivesChange (asm_row text.now (registry_of self.old.state)) self.old.state
            result self.new.state }
        ensures stands { GivesAs (registered (asm_row text.now)) self.old result self.new }
        ensures taken { TakesText text.now result }
        ensures ample { IsAmplyDone (registered (asm_row text.now)) self.old result }
        ensures want { WantKeeps self.old result self.new }
        ensures told { CanBeTold result }
        ensures modes { self.new.modes ≡ self.old.modes }
    {
        match assemble(self.alloc, text) {
            Ok(file) => self.load(file.as_slice()),
            Err(error) => not_assembled(error),
        }
    }

    /// Makes a process under the next number, with the registers and the memory of a process, whose frames it shares: `Forked`, or why
    /// not. `Full` exactly where it isn't refused and the units after the fork would exceed the limit. After want of memory
    /// everything is as before.
    fn fork(&mut self, p: u16) -> Answer
        ensures gives { GivesChange (on_process p (fork_row p) (registry_of self.old.state)) self.old.state
            result self.new.state }
        ensures want { WantKeeps self.old result self.new }
        ensures told { CanBeTold result }
        ensures modes { self.new.modes ≡ self.old.modes }
    {
        let process = match self.machine.process(p) {
            None => return Answer::Refused(Code::NoProcess),
            Some(process) => *process,
        };
        let speculating = self.machine.memory().is_speculating(p);
        let q = match fork_number(process.state, speculating, self.numbers.least()) {
            Ok(q) => q,
            Err(code) => return Answer::Refused(code),
        };
        match fork_process(&mut self.machine, p, q, process) {
            Ok(()) => {
                self.numbers.take(q);
                Answer::Forked(p, q)
            }
            Err(error) => not_made(error),
        }
    }

    /// Keeps a process's registers, state and memory under a name, with the next number as its space: `Saved`, or why not. `Full` exactly
    /// where it isn't refused and the units after it would exceed the limit. After want of memory everything is as before.
    fn checkpoint(&mut self, p: u16, name: &Bytes) -> Answer
        requires { IsCheckpointName name.now }
        ensures gives { GivesChange (on_process p (checkpoint_row p name.now) (registry_of self.old.state))
            self.old.state result self.new.state }
        ensures want { WantKeeps self.old result self.new }
        ensures told { CanBeTold result }
        ensures modes { self.new.modes ≡ self.old.modes }
    {
        let process = match self.machine.process(p) {
            None => return Answer::Refused(Code::NoProcess),
            Some(process) => *process,
        };
        let speculating = self.machine.memory().is_speculating(p);
        let taken = self.checkpoints.has(name.as_slice());
        let q = match checkpoint_number(speculating, taken, self.numbers.least()) {
            Ok(q) => q,
            Err(code) => return Answer::Refused(code),
        };
        match save_process(
            self.alloc,
            &mut self.machine,
            &mut self.checkpoints,
            p,
            q,
            process,
            name,
        ) {
            Ok(told) => {
                self.numbers.take(q);
                Answer::Saved(p, told, q)
            }
            Err(error) => not_made(error),
        }
    }

    /// Gives a process the registers, the state and the memory that are kept under a name. `Full` exactly where it isn't refused and the
    /// units after it would exceed the limit. After want of memory everything is as before.
    fn restore(&mut self, p: u16, name: &Bytes) -> Answer
        ensures gives { GivesChange (on_process p (restore_row p name.now) (registry_of self.old.state))
            self.old.state result self.new.state }
        ensures want { WantKeeps self.old result self.new }
        ensures told { CanBeTold result }
        ensures modes { self.new.modes ≡ self.old.modes }
    {
        match self.machine.process(p) {
            None => return Answer::Refused(Code::NoProcess),
            Some(_) => {}
        }
        if self.machine.memory().is_speculating(p) {
            return Answer::Refused(Code::Speculating);
        }
        let (q, process) = match self.checkpoints.get(name.as_slice()) {
            None => return Answer::Refused(Code::NoCheckpoint),
            Some(kept) => (kept.space, kept.process()),
        };
        match restore_process(&mut self.machine, q, p, process) {
            Ok(()) => {}
            Err(error) => return not_made(error),
        }
        Answer::Done
    }

    /// Makes a checkpoint of a file of at most 16 MiB that says an image over another checkpoint, with the next number as its space: `Imported`,
    /// or why not. `Full` exactly where it isn't refused and the units after it would exceed the limit; want of memory comes only where neither
    /// name is a reason to refuse it. After that everything is as before.
    pub fn import(&mut self, name: &Bytes, base: &Bytes, file: &[u8]) -> Answer
        requires named { IsCheckpointName name.now }
        requires based { IsCheckpointName base.now }
        requires small { length file.now ≤ MOST_FILE_BYTES }
        ensures gives { GivesChange
            (import_row name.now base.now file.now (registry_of self.old.state))
            self.old.state result self.new.state }
        ensures stands { GivesAs (registered (import_row name.now base.now file.now)) self.old result self.new }
        ensures ample { IsAmplyDone (registered (import_row name.now base.now file.now)) self.old result }
        ensures want { WantKeeps self.old result self.new }
        ensures told { CanBeTold result }
        ensures modes { self.new.modes ≡ self.old.modes }
    {
        if self.checkpoints.has(name.as_slice()) {
            return Answer::Refused(Code::NameTaken);
        }
        let from = match self.checkpoints.get(base.as_slice()) {
            None => return Answer::Refused(Code::NoCheckpoint),
            Some(kept) => kept.space,
        };
        let delta = match read_delta(self.alloc, file) {
            Ok(delta) => delta,
            Err(answer) => return answer,
        };
        let q = match self.numbers.least() {
            None => return Answer::Refused(Code::NumbersUsed),
            Some(q) => q,
        };
        match import_space(
            self.alloc,
            &mut self.machine,
            &mut self.checkpoints,
            from,
            q,
            &delta,
            name,
        ) {
            Ok(told) => {
                self.numbers.take(q);
                Answer::Imported(told, q, delta.pages.as_slice().len() as u32)
            }
            Err(error) => not_made(error),
        }
    }

    /// The image of a checkpoint over another one; refused where one of them isn't there, and where it would have more than 4 MiB. Want of
    /// memory comes only where it isn't refused. The lines of the image are a file from which `import`, over a checkpoint with what the
    /// other one has, makes what this one has. Nothing changes.
    pub fn export(&self, name: &Bytes, base: &Bytes) -> Result<Vec<u8>, ExportError>
        requires named { IsCheckpointName name.now }
        requires based { IsCheckpointName base.now }
        ensures exports { Exports (λ image. image.items)
            (exported_by name.now base.now self.now.state.checkpoints) result }
        ensures stands { HoldsFor (λ state. Exports (λ image. image.items)
            (exported_by name.now base.now state.checkpoints) result) self.now }
        ensures back { IfOk result (λ image.
            ComeBack name.now base.now self.now.state.checkpoints image.items) }
    {
        match self.checkpoints.get(name.as_slice()) {
            None => Err(ExportError::Refused(Code::NoCheckpoint)),
            Some(saved) => match self.checkpoints.get(base.as_slice()) {
                None => Err(ExportError::Refused(Code::NoCheckpoint)),
                Some(from) => export_space(self.alloc, &self.machine, saved, from),
            },
        }
    }

    /// Gives up the checkpoint of a name.
    fn forget(&mut self, name: &Bytes) -> Answer
        ensures gives { GivesChange
            (on_checkpoint name.now (forget_row name.now) (registry_of self.old.state))
            self.old.state result self.new.state }
        ensures want { WantKeeps self.old result self.new }
        ensures told { CanBeTold result }
        ensures modes { self.new.modes ≡ self.old.modes }
    {
        match self.checkpoints.remove(name.as_slice()) {
            None => Answer::Refused(Code::NoCheckpoint),
            Some(kept) => {
                self.machine.drop_space(kept.space);
                self.numbers.give_back(kept.space);
                Answer::Done
            }
        }
    }

    /// Does a change to a process: a speculation begins or ends, pages are promoted, mapped or given up, or a register is set. Answers what came of it, or why
    /// it wasn't done. `Full` exactly where it isn't refused and the units after it would exceed the limit.
    fn change_process(&mut self, p: u16, change: ProcessChange) -> Answer
        requires { IsFineChange change }
        ensures gives { GivesChange (on_process p (process_row p change) (registry_of self.old.state))
            self.old.state result self.new.state }
        ensures want { WantKeeps self.old result self.new }
        ensures told { CanBeTold result }
        ensures modes { self.new.modes ≡ self.old.modes }
    {
        match self.machine.process(p) {
            None => Answer::Refused(Code::NoProcess),
            Some(process) => {
                let process = *process;
                change_process(&mut self.machine, p, process, change)
            }
        }
    }

    /// Moves segments until no two free blocks below a frame are equal in size. No state shows blocks.
    fn compact(&mut self) -> Answer
        ensures settled { AreSettledCounts self.new.free_blocks }
        ensures gives { GivesChange (still_row (registry_of self.old.state)) self.old.state
            result self.new.state }
        ensures want { WantKeeps self.old result self.new }
        ensures told { CanBeTold result }
        ensures modes { self.new.modes ≡ self.old.modes }
    {
        self.machine.memory_mut().compact();
        Answer::Done
    }

    /// Stores bytes from an address of a process on. Unmapped or Forbidden at the first whose page isn't there or may not be written, and
    /// `Full` exactly where neither holds and the units after it would exceed the limit.
    fn poke(&mut self, p: u16, address: u64, bytes: &Bytes) -> Answer
        requires { length bytes.now ≤ PAGE_BYTES }
        ensures gives { GivesChange (on_process p (poke_row p address bytes.now) (registry_of self.old.state))
            self.old.state result self.new.state }
        ensures want { WantKeeps self.old result self.new }
        ensures told { CanBeTold result }
        ensures modes { self.new.modes ≡ self.old.modes }
    {
        match self.machine.process(p) {
            None => Answer::Refused(Code::NoProcess),
            Some(process) => {
                let process = *process;
                poke(&mut self.machine, p, process, address, bytes.as_slice())
            }
        }
    }

    /// Adds a breakpoint of a process. One that is there stays, and takes no memory.
    fn add_breakpoint(&mut self, p: u16, address: u64) -> Answer
        ensures gives { GivesChange (on_process p (break_row p address) (registry_of self.old.state))
            self.old.state result self.new.state }
        ensures want { WantKeeps self.old result self.new }
        ensures told { CanBeTold result }
        ensures modes { self.new.modes ≡ self.old.modes }
    {
        match self.machine.process(p) {
            None => return Answer::Refused(Code::NoProcess),
            Some(_) => {}
        }
        match self.breakpoints.add(p, address) {
            Ok(()) => {}
            Err(_) => return Answer::Memory,
        }
        Answer::Done
    }

    /// Takes away a breakpoint of a process, where it is there.
    fn remove_breakpoint(&mut self, p: u16, address: u64) -> Answer
        ensures gives { GivesChange (on_process p (unbreak_row p address) (registry_of self.old.state))
            self.old.state result self.new.state }
        ensures want { WantKeeps self.old result self.new }
        ensures told { CanBeTold result }
        ensures modes { self.new.modes ≡ self.old.modes }
    {
        match self.machine.process(p) {
            None => return Answer::Refused(Code::NoProcess),
            Some(_) => {}
        }
        self.breakpoints.remove(p, address);
        Answer::Done
    }

    /// Puts the page of an address of process `p` on that of an address of process `q`: they share a frame, and what differs becomes own
    /// lines. No process changes, and the units fall.
    fn dedup(&mut self, p: u16, address: u64, q: u16, other: u64) -> Answer
        ensures gives { GivesChange (dedup_row p address q other self.old.state) self.old.state
            result self.new.state }
        ensures want { WantKeeps self.old result self.new }
        ensures told { CanBeTold result }
        ensures modes { self.new.modes ≡ self.old.modes }
    {
        dedup_page(&mut self.machine, p, address, q, other)
    }

    /// Puts each page of process `p` that process `q` has too on that one, where that can be, and passes over the others.
    fn dedup_all(&mut self, p: u16, q: u16) -> Answer
        ensures gives { GivesChange (dedup_all_row p q self.old.state) self.old.state
            result self.new.state }
        ensures want { WantKeeps self.old result self.new }
        ensures told { CanBeTold result }
        ensures modes { self.new.modes ≡ self.old.modes }
    {
        dedup_pages(&mut self.machine, p, q)
    }

    /// Gives up a process.
    fn drop_process(&mut self, p: u16) -> Answer
        ensures gives { GivesChange (on_process p (drop_row p) (registry_of self.old.state)) self.old.state
            result self.new.state }
        ensures want { WantKeeps self.old result self.new }
        ensures told { CanBeTold result }
        ensures modes { self.new.modes ≡ self.old.modes }
    {
        match self.machine.process(p) {
            None => return Answer::Refused(Code::NoProcess),
            Some(_) => {}
        }
        self.machine.remove(p);
        self.machine.drop_space(p);
        self.numbers.give_back(p);
        self.breakpoints.clear(p);
        Answer::Done
    }

    /// Does a command that asks for no file, by its row.
    #[tactic(auto, using(crate::proofs::Rows::gives_still))]
    fn do_row(&mut self, command: &Command) -> Answer
        requires asks { asks command.now ≡ None }
        requires given { IsGiven command.now }
        ensures gives { GivesChange (row_in [] command.now self.old.state) self.old.state
            result self.new.state }
        ensures settled { command.now ≡ Command.Compact → AreSettledCounts self.new.free_blocks }
        ensures want { WantKeeps self.old result self.new }
        ensures told { CanBeTold result }
        ensures modes { self.new.modes ≡ self.old.modes }
    {
        match command {
            Command::Fork(p) => self.fork(*p),
            Command::Checkpoint(p, name) => self.checkpoint(*p, name),
            Command::Restore(p, name) => self.restore(*p, name),
            Command::Forget(name) => self.forget(name),
            Command::Speculate(p) => self.change_process(*p, ProcessChange::Speculate),
            Command::Commit(p) => self.change_process(*p, ProcessChange::Commit),
            Command::Discard(p) => self.change_process(*p, ProcessChange::Discard),
            Command::Promote(p, address) => {
                self.change_process(*p, ProcessChange::Promote(*address))
            }
            Command::PromoteAll(p) => self.change_process(*p, ProcessChange::PromoteAll),
            Command::Dedup(p, address, q, other) => self.dedup(*p, *address, *q, *other),
            Command::DedupAll(p, q) => self.dedup_all(*p, *q),
            Command::Compact => self.compact(),
            Command::Map(p, address, n, perms) => {
                self.change_process(*p, ProcessChange::Map(*address, *n, *perms))
            }
            Command::Unmap(p, address, n) => {
                self.change_process(*p, ProcessChange::Unmap(*address, *n))
            }
            Command::Drop(p) => self.drop_process(*p),
            Command::Poke(p, address, bytes) => self.poke(*p, *address, bytes),
            Command::Set(p, register, value) => {
                self.change_process(*p, ProcessChange::Set(*register, *value))
            }
            Command::Break(p, address) => self.add_breakpoint(*p, *address),
            Command::Unbreak(p, address) => self.remove_breakpoint(*p, *address),
            Command::Exec(_, _)
            | Command::Load(_)
            | Command::Asm(_)
            | Command::Import(_, _, _)
            | Command::Export(_, _)
            | Command::Run(_)
            | Command::Step(_, _)
            | Command::Regs(_)
            | Command::Dump(_, _, _)
            | Command::Disasm(_, _, _)
            | Command::List
            | Command::Stats => Answer::Done,
        }
    }

    /// Does a change: a command of a script that asks for no file, and that isn't `run`, `step` or a printing one, which change nothing
    /// here. Answers what came of it, or why it wasn't done. Want of memory comes only of a command that takes memory, that nothing refuses, and for
    /// which there are units enough; then everything is as before. `Full` never comes where the frames are at least one more than twice
    /// the pages that all spaces would have.
    pub fn change(&mut self, command: &Command) -> Answer
        requires asks { asks command.now ≡ None }
        requires given { IsGiven command.now }
        ensures gives { GivesChange (row_in [] command.now self.old.state) self.old.state
            result self.new.state }
        ensures stands { GivesAs (row_in [] command.now) self.old result self.new }
        ensures ample { IsAmplyDone (row_in [] command.now) self.old result }
        ensures settled { command.now ≡ Command.Compact → AreSettledCounts self.new.free_blocks }
        ensures want { WantKeeps self.old result self.new }
        ensures told { CanBeTold result }
        ensures modes { self.new.modes ≡ self.old.modes }
    {
        self.do_row(command)
    }

    /// Begins so many turns, at least 1, by round robin.
    pub fn begin_run(&self, turns: u32) -> Running
        ensures begun { result
            ≡ begun_run self.now.modes.quantum self.now.modes.calls turns self.now.state }
        ensures stands { SessionAnswersAs
            (begun_run self.now.modes.quantum self.now.modes.calls turns) self.now result }
    {
        self.begin(Order::ByTurns(RoundRobin::new(self.modes.quantum)), turns)
    }

    /// Begins so many turns, at least 1, of one process. Refused where there is none, or where it has ended.
    pub fn begin_step(&self, p: u16, turns: u32) -> Result<Running, Code>
        ensures begun { BeginsStep self.now.state.breakpoints self.now.state.wholes
            self.now.modes.calls p turns result }
        ensures stands { SessionAnswersAs (begun_step self.now.modes.calls p turns) self.now result }
    {
        match self.machine.process(p) {
            None => Err(Code::NoProcess),
            Some(process) => match process.state {
                ProcessState::Running => Ok(self.begin(Order::Alone(p), turns)),
                ProcessState::Exited(_) | ProcessState::Faulted(_, _) => Err(Code::Ended),
            },
        }
    }

    /// A run of which no turn was taken, with the ending that holds.
    fn begin(&self, order: Order, turns: u32) -> Running
        ensures { result ≡ run_found self.now.state.breakpoints self.now.state.wholes
            (begun_by order self.now.modes.calls turns) }
    {
        begin(
            &self.machine,
            &self.breakpoints,
            order,
            self.modes.calls,
            turns,
        )
    }

    /// Takes the next turn, and answers whose it was and what came of it. None exactly where an ending was found before,
    /// or one holds; then nothing changes.
    pub fn turn(&mut self, running: &mut Running) -> Option<(u16, Turn)>
        ensures turn { takes_turn running.old result running.new self.old.state self.new.state }
        ensures stands { TurnsAs (takes_turn running.old result running.new) self.old self.new }
        ensures still { result ≡ None → self.new ≡ self.old }
        ensures others { KeepsRest self.old self.new }
    {
        next_turn(&mut self.machine, &self.breakpoints, running)
    }

    /// Takes turns until one has a line, which it sets, and answers true; or until the run has ended. The line is that turn's, and the
    /// only one. It is `turn` again
    /// and again, without a `Turn` where nothing is to be said.
    pub fn turn_line(&mut self, running: &mut Running, line: &mut Line) -> bool
        ensures says { result ≡ true →
            speaks running.old line.new.items running.new self.old.state self.new.state }
        ensures one { result ≡ true → IsTurnLine line.new.items }
        ensures ends { result ≡ false →
            ends_run running.old running.new self.old.state self.new.state }
        ensures stands { result ≡ true →
            TurnsAs (speaks running.old line.new.items running.new) self.old self.new }
        ensures rests { result ≡ false → TurnsAs (ends_run running.old running.new) self.old self.new }
        ensures fewer { result ≡ true → lines_left running.new < lines_left running.old }
        ensures asked { running.new.run.turns ≡ running.old.run.turns }
        ensures within { running.new.run.taken ≤ running.new.run.turns }
        ensures others { KeepsRest self.old self.new }
    {
        turns_to_line(&mut self.machine, &self.breakpoints, running, line)
    }

    /// Takes one turn of each number, in order, and passes over those that aren't running then. Processes may speculate by themselves, whatever
    /// `set_calls` said. So each process is its own turns: what as many of its own as weren't answered Full make of it, with what is kept of it,
    /// whatever others did between. Takes no memory.
    pub fn play_calls(&mut self, turns: &[u16])
        ensures plays { AreLike self.new.state.wholes (run_over turns.now self.old.state.wholes) }
        ensures own { AreOwnCalledTurns turns.now self.old.state.wholes self.new.state.wholes }
        ensures stands { PlaysAs turns.now self.old self.new }
        ensures others { KeepsRest self.old self.new }
    {
        play(&mut self.machine, turns);
    }

    /// A process, by its number; refused where there is none.
    pub fn look_process(&self, p: u16) -> Result<ProcessView, Code>
        ensures looks { LooksAt self.now.state.wholes.processes p result }
        ensures stands { SessionAnswersAs
            (λ state. looked_at (get state.wholes.processes p)) self.now result }
    {
        match self.machine.process(p) {
            None => return Err(Code::NoProcess),
            Some(process) => Ok(ProcessView {
                regs: process.regs,
                state: process.state,
                speculating: self.machine.memory().is_speculating(p),
                pages: self.machine.memory().pages(p),
            }),
        }
    }

    /// Whether `n` bytes of a process from an address on are there, whatever the permissions: refused where there is no process, and at the
    /// first byte whose page isn't there.
    pub fn can_read(&self, p: u16, address: u64, n: u32) -> Result<(), Code>
        ensures looks { CanRead self.now.state.wholes.processes p address n result }
        ensures stands { SessionAnswersAs
            (λ state. look_of address n (get state.wholes.processes p)) self.now result }
        ensures low { OnOk result (0 < n → address + n ≤ ADDRESS_END) }
    {
        match self.machine.process(p) {
            None => Err(Code::NoProcess),
            Some(_) => can_read(self.machine.memory(), p, address, n),
        }
    }

    /// Fills `into` with the bytes of a process from an address on, whatever the permissions: refused where there is no process, and at
    /// the first byte whose page isn't there.
    pub fn read(&self, p: u16, address: u64, into: &mut [u8]) -> Result<(), Code>
        ensures looks { CanRead self.now.state.wholes.processes p address (length into.old) result }
        ensures bytes { ReadsBytes self.now.state.wholes.processes p address (length into.old)
            into.new result }
        ensures stands { HoldsFor
            (λ state. CanRead state.wholes.processes p address (length into.old) result) self.now }
        ensures kept { length into.new ≡ length into.old }
    {
        match self.machine.process(p) {
            None => Err(Code::NoProcess),
            Some(_) => read_bytes(self.machine.memory(), p, address, into),
        }
    }

    /// The least process number from `from` on; none exactly where there is none.
    pub fn next_process(&self, from: u16) -> Option<u16>
        ensures next { NextProcess self.now.state.wholes.processes from result }
        ensures stands { HoldsFor (λ state. NextProcess state.wholes.processes from result) self.now }
        ensures within { IfSome result (λ p. (from ≤ p) × (p ≤ LAST_SPACE)) }
    {
        self.machine.next_process(from)
    }

    /// The checkpoint of a place, in the order of making; none exactly past the last.
    pub fn checkpoint_at(&self, index: usize) -> Option<CheckpointView<'_>>
        ensures looks { LooksAtCheckpoint self.now.state.checkpoints index result }
        ensures stands { HoldsFor (λ state. LooksAtCheckpoint state.checkpoints index result) self.now }
        ensures named { IfSome result (λ view. IsCheckpointName view.name.now) }
        ensures within { IfSome result (λ view. index < LAST_SPACE) }
    {
        match self.checkpoints.at(index) {
            None => None,
            Some(kept) => Some(view_of(kept, self.machine.memory().pages(kept.space))),
        }
    }

    /// What is counted over all processes and checkpoints. Costs a step.
    pub fn counts(&self) -> Counts
        ensures counts { result ≡ counts_of self.now.state.wholes }
        ensures stands { SessionAnswersAs (λ state. counts_of state.wholes) self.now result }
    {
        let memory = self.machine.memory();
        Counts {
            units: memory.units(),
            limit: memory.limit(),
            lines: memory.lines(),
            hits: memory.hits(),
            misses: memory.misses(),
        }
    }
}
