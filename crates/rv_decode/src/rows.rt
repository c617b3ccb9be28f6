//! One row of an instruction table.

use crate::names::{Format, Name};

/// The words of one instruction: those that are `value` in the bits of `mask`.
#[derive(Clone, Copy, Debug, PartialEq, Eq)]
pub struct CaseRow {
    /// The bits that are fixed.
    pub mask: u32,
    /// What the fixed bits are; 0 elsewhere.
    pub value: u32,
    pub format: Format,
    pub name: Name,
}
