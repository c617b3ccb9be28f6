/// Why nothing is promoted.
#[derive(Clone, Copy, Debug, PartialEq, Eq)]
pub enum PromoteError {
    /// the page with this address isn't there
    Unmapped(u64),
    /// the space is speculating
    Speculating,
    /// the units that would be needed exceed the limit, which is the second number
    Full(u32, u32),
}
