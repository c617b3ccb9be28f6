//! How a process differs from a checkpoint.

use crate::delta_lines::DeltaLines;
use crate::delta_pages::DeltaPages;
use ovl_io::{Perms, ProcessState};
use rv_execute::Regs;

/// How a process differs from a base, a process or a checkpoint: its registers and its state, and all of its pages.
#[derive(Debug, Drop)]
pub struct Delta {
    pub state: ProcessState,
    pub regs: Regs,
    pub pages: DeltaPages,
}

/// A page that the process has.
#[derive(Debug, Drop)]
pub struct DeltaPage {
    /// Its number, below 2^26.
    pub page: u64,
    pub perms: Perms,
    /// Its lines that aren't those of the base's page; where the base has no such page, those that aren't zero.
    pub lines: DeltaLines,
}
