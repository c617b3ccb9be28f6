//! The pages of a delta.

ghost use Rattle.std.specs.Prelude.{◌≡◌};

use crate::delta::DeltaPage;
use std::marker::Model;

/// Pages, in ascending order of their numbers.
#[derive(Debug, Drop)]
pub struct DeltaPages {
    pages: Vec<DeltaPage>,
}

impl Model for DeltaPages {
    ghost use Rattle.std.specs.Prelude.{List};
    ghost use Rattle.delta_image.specs.declared.delta.DeltaPage.{DeltaPage};

    ghost Value = { List DeltaPage };

    ghost view = { λ d. d.pages.items };
}

impl DeltaPages {
    /// The pages as they stand in the list.
    pub fn new(pages: Vec<DeltaPage>) -> DeltaPages
        ensures { result ≡ pages.items }
    {
        DeltaPages { pages }
    }

    /// All of them.
    pub fn as_slice(&self) -> &[DeltaPage]
        ensures { result.now ≡ self.now }
    {
        self.pages.as_slice()
    }
}
