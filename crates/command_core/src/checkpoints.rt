//! Checkpoints by name, in the order of making.

ghost use Rattle.std.specs.Prelude.{◌≡◌, [], None, IfSome, slice_get};
ghost use Rattle.std.specs.Option.{is_some, option_copied};
ghost use Rattle.report_text.specs.Answers.{IsCheckpointName};
ghost use Rattle.command_core.specs.Kept.{EntersName, kept_but, kept_named, kept_process};

use machine_core::Process;
use named_list::NamedList;
use ovl_io::{Bytes, ProcessState};
use rv_execute::Regs;
use std::alloc::{AllocError, Global};
use std::marker::Model;

/// A checkpoint: its name, the number of its space, and the registers and the state that are kept.
#[derive(Debug, Drop)]
pub(crate) struct Kept {
    pub(crate) name: Bytes,
    pub(crate) space: u16,
    pub(crate) regs: Regs,
    pub(crate) state: ProcessState,
}

impl Kept {
    /// The process that is kept, all but its memory.
    pub(crate) fn process(&self) -> Process
        ensures { result ≡ kept_process self.now }
    {
        Process {
            regs: self.regs,
            state: self.state,
            saved: None,
        }
    }
}

/// Checkpoints, of which no two have one name. One is found by its name without going over the others, and one that goes moves no other.
#[derive(Drop)]
pub(crate) struct Checkpoints {
    by_name: NamedList<Kept>,
}

impl Model for Checkpoints {
    ghost use Rattle.std.specs.Prelude.{List};
    ghost use Rattle.std.specs.Map.{values_of};
    ghost use Rattle.command_core.specs.declared.checkpoints.Kept.{Kept};
    ghost use Rattle.command_core.specs.Kept.{AreNamed};

    ghost Value = { List Kept };

    ghost view = { λ c. values_of c.by_name };

    ghost invariant = { λ c. AreNamed (λ name. name) c.by_name };
}

impl Checkpoints {
    /// No checkpoints; takes no memory.
    pub(crate) fn new(alloc: Global) -> Checkpoints
        ensures { result ≡ [] }
    {
        Checkpoints {
            by_name: NamedList::new(alloc),
        }
    }

    /// The checkpoint of a name.
    pub(crate) fn get(&self, name: &[u8]) -> Option<&Kept>
        ensures { option_copied result ≡ kept_named name.now self.now }
    {
        self.by_name.get(name)
    }

    /// Whether a checkpoint has a name.
    pub(crate) fn has(&self, name: &[u8]) -> bool
        ensures { result ≡ is_some (kept_named name.now self.now) }
    {
        match self.get(name) {
            Some(_) => true,
            None => false,
        }
    }

    /// The checkpoint of a place, in the order of making.
    pub(crate) fn at(&self, index: usize) -> Option<&Kept>
        ensures at { option_copied result ≡ slice_get self.now index }
        ensures named { IfSome result (λ x. IsCheckpointName x.now.name) }
    {
        match self.by_name.at(index) {
            Some((_, kept)) => Some(kept),
            None => None,
        }
    }

    /// Enters a checkpoint, the last of all, under a name that none has, and answers a copy of the name. After want of memory
    /// everything is as before.
    pub(crate) fn enter(
        &mut self,
        alloc: Global,
        name: &Bytes,
        space: u16,
        process: Process,
    ) -> Result<Bytes, AllocError>
        requires named { IsCheckpointName name.now }
        requires absent { kept_named name.now self.old ≡ None }
        ensures { EntersName name.now space process self.old self.new result }
    {
        let kept = Kept {
            name: name.copy()?,
            space,
            regs: process.regs,
            state: process.state,
        };
        let told = name.copy()?;
        self.by_name.enter(alloc, name.as_slice(), kept)?;
        Ok(told)
    }

    /// Takes away the checkpoint of a name, and answers it; none where there is none. The others keep their order. Takes no memory.
    pub(crate) fn remove(&mut self, name: &[u8]) -> Option<Kept>
        ensures removed { result ≡ kept_named name.now self.old }
        ensures others { self.new ≡ kept_but name.now self.old }
    {
        self.by_name.remove(name)
    }
}
