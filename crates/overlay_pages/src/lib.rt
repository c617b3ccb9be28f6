//! The pages of all spaces, line by line: where the ledger's pages meet the lines of frames and segments.
//!
//! The model of an `OverlayPages` is the store of frames and segments, with each line of the region, and the
//! tables of all spaces. What calls do is said of the state that these stand for: for each page its
//! permissions and frame, its own lines, its lines as a process sees them, and those of its frame.
//!
//! - `frames`: frames that are filled
//! - `moving`: moves of segments, which the tables follow
//! - `overlays`: lines that come into overlays, and overlays that end
//! - `placing`: pages that come into new frames, and pages that go
//! - `settling`: overlays that go into frames
//! - `sharing`: pages that are shared with another space
//! - `spots`: pages and lines that were found, and where they stand
//! - `pages`: all of it
#![tactic(auto)]

mod frames;
mod moving;
mod overlays;
mod pages;
mod placing;
mod rebasing;
mod settling;
mod sharing;
mod spots;

pub use pages::OverlayPages;
pub use settling::{LARGE_LINES, MOST_OWN};
pub use spots::{FoundLine, FoundPage, NO_PAGE};
