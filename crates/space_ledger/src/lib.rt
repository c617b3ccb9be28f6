//! The tables of all spaces, who shares a page's frame, which lines are a page's own, and how many units that takes.
//! It holds no bytes.
//!
//! The model of a `SpaceLedger` is its view: the spaces by number, each with its pages (their permissions and frames, and
//! their overlays), the pages that await being shared, and a mark where it is speculating. The ledger is a function of the
//! view: an origin is 0 for the zero frame and the frame's number plus 1 for every other one, and a page's own lines are
//! those of its overlay.
//!
//! - `spaces`: the ledger of all spaces
//! - `frames`: the sharers of a frame
//! - `runs`: parts of a run of pages
//! - `tables`: the tables and overlays of all spaces
//! - `space`: the pages of one space
#![tactic(auto)]

mod frames;
mod runs;
mod space;
mod spaces;
mod tables;

pub use frames::class_of;
pub use spaces::SpaceLedger;
