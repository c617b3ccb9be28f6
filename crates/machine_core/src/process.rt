ghost use Rattle.std.specs.Prelude.{◌≡◌, None};
ghost use Rattle.machine_core.specs.Process.{runs};

use ovl_io::ProcessState;
use rv_execute::Regs;

/// What is kept of a process while it is speculating: its registers and its state at the start.
#[derive(Clone, Copy, Debug)]
pub struct SavedRegs {
    pub regs: Regs,
    pub state: ProcessState,
}

impl SavedRegs {
    /// The process that is there again after a discard: nothing is kept of it any more.
    #[inline]
    pub fn process(self) -> Process
        ensures { result ≡ record { regs = self.regs; state = self.state; saved = None } }
    {
        Process {
            regs: self.regs,
            state: self.state,
            saved: None,
        }
    }
}

/// A process without its memory: its registers, whether it runs, and what is kept while it is speculating.
#[derive(Clone, Copy, Debug)]
pub struct Process {
    pub regs: Regs,
    pub state: ProcessState,
    pub saved: Option<SavedRegs>,
}

/// Whether a process runs.
#[inline]
pub(crate) fn is_running(process: &Process) -> bool
    ensures { result ≡ runs process.now.state }
{
    match process.state {
        ProcessState::Running => true,
        ProcessState::Exited(_) | ProcessState::Faulted(_, _) => false,
    }
}
