//! The lines of a page of a delta.

ghost use Rattle.std.specs.Prelude.{◌≡◌};

use std::marker::Model;

/// Lines of a page, in ascending order: each with its number, below 64, and its 64 bytes.
#[derive(Debug, Drop)]
pub struct DeltaLines {
    lines: Vec<(u8, [u8; 64])>,
}

impl Model for DeltaLines {
    ghost use Rattle.std.specs.Prelude.{List};
    ghost use Rattle.delta_image.specs.Line.{Line};

    ghost Value = { List Line };

    ghost view = { λ d. d.lines.items };
}

impl DeltaLines {
    /// The lines as they stand in the list.
    pub fn new(lines: Vec<(u8, [u8; 64])>) -> DeltaLines
        ensures { result ≡ lines.items }
    {
        DeltaLines { lines }
    }

    /// All of them.
    pub fn as_slice(&self) -> &[(u8, [u8; 64])]
        ensures { result.now ≡ self.now }
    {
        self.lines.as_slice()
    }
}
