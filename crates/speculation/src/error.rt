/// Why a call on a space's speculation isn't done.
#[derive(Clone, Copy, Debug, PartialEq, Eq)]
pub enum SpeculationError {
    /// the space is speculating
    Speculating,
    /// the space isn't speculating
    NotSpeculating,
    /// the units that would be needed exceed the limit, which is the second number
    Full(u32, u32),
}
