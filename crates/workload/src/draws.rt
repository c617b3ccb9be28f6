ghost use Rattle.std.specs.Prelude.{◌≡◌};
ghost use Rattle.workload.specs.Draws.{drawn_in, next_state};

/// The multiplier and the increment of Knuth's MMIX.
const MULTIPLIER: u64 = 6_364_136_223_846_793_005;

const INCREMENT: u64 = 1_442_695_040_888_963_407;

/// The draws of a seed, one after the other.
#[derive(Debug, Drop)]
pub(crate) struct Draws {
    pub(crate) state: u64,
}

impl Draws {
    pub(crate) fn new(seed: u64) -> Draws
        ensures { result.state ≡ seed }
    {
        Draws { state: seed }
    }

    /// The next draw, of 31 bits.
    pub(crate) fn draw(&mut self) -> u64
        ensures state { self.new.state ≡ next_state self.old.state }
        ensures drawn { result ≡ drawn_in self.new.state }
    {
        self.state = self.state.wrapping_mul(MULTIPLIER).wrapping_add(INCREMENT);
        self.state >> 33
    }
}
