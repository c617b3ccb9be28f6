/// Why a page isn't put on another one: the first that holds.
#[derive(Clone, Copy, Debug, PartialEq, Eq)]
pub enum DedupError {
    /// the page isn't alone
    NotAlone,
    /// the other page is on a frame other than the zero frame, and some page of the space is on it
    FrameHere,
    /// so many lines are the other page's own or differ, and those are more than 31
    NotAlike(u32),
}
