//! Why a file can't be read as the lines of an image.

ghost use Rattle.std.specs.Prelude.{◌≡◌};

use std::alloc::AllocError;

/// Why a file can't be read as the lines of an image.
#[derive(Clone, Copy, Debug, PartialEq, Eq)]
pub enum LinesError {
    /// This line, counted from 1, is the first that isn't well formed.
    BadLine(u32),
    /// There is no memory for the bytes.
    Memory,
}

impl From<AllocError> for LinesError {
    ghost use Rattle.std.specs.Prelude.{◌≡◌};
    ghost use Rattle.image_lines.specs.declared.lines_error.LinesError.TheVariants.{Memory};

    ghost from_gives = { λ _ e. e ≡ Memory };

    fn from(_: AllocError) -> LinesError {
        LinesError::Memory
    }
}
