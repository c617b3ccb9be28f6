//! Why a text has no file.

/// Why a text has no file. Lines are counted from 1. Of the refusals that hold the first in this order is told.
#[derive(Clone, Copy, Debug, Drop, PartialEq, Eq)]
pub enum AsmError {
    /// The first line that is outside the grammar.
    BadLine(u32),
    /// The first line whose label stands before it.
    Twice(u32),
    /// The first line that names a label that isn't there.
    NoLabel(u32),
    /// The first line whose label is outside its immediate's range.
    OutOfReach(u32),
    /// There is no item.
    Empty,
    /// There are more than `MOST_ITEMS` items.
    TooMany,
    /// There is no memory.
    Memory,
}
