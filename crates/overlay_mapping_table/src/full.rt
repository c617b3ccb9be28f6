ghost use Rattle.std.specs.Prelude.{◌≡◌, ℕ, ◌<◌, ◌≤◌};

// Places one behind the other, up to an end, of which each has a row.
#[derive(Clone, Copy, Debug)]
pub(crate) struct Full {
    pub from: usize,
    pub end: usize,
}

impl Full {
    // None.
    pub fn none() -> Full
        ensures { result ≡ record { from = 0; end = 0 } }
    {
        Full { from: 0, end: 0 }
    }

    // The first place from one on that isn't among them.
    pub fn behind(self, place: usize) -> usize
        ensures low { place ≤ result }
        ensures among { (i : ℕ) → place ≤ i → i < result → self.from ≤ i }
        ensures inside { (i : ℕ) → place ≤ i → i < result → i < self.end }
    {
        if self.from <= place && place < self.end {
            self.end
        } else {
            place
        }
    }
}
