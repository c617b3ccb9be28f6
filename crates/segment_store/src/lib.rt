//! Segments of several sizes, each with the lines of one overlay, and frames, in the units of one region.
//!
//! The model of a `SegmentStore` is a record of the region's lines as they lie, of the blocks of its units,
//! and by unit of the segment that starts there: whose it is, its order, and which lines it has. Where a line
//! of a segment stands, and so what it is, is read off the lines: in a segment of 16 units each line has its
//! own place, in a smaller one the slot that the line of pointers at its start tells. Behind the units lies
//! one frame more, scratch, through which segments grow.
//!
//! - `lines`: the lines of the units, and those of scratch
//! - `pointers`: the line of pointers, read and written slot by slot
//! - `segment`: what the store keeps of a segment beside its lines
//! - `slots`: the segments by unit
//! - `places`: where lines stand in the region, and how they get there
//! - `steps`: a count of the lines that moves copy
//! - `store`: all of it, with the unit map
#![tactic(auto)]

mod lines;
mod places;
mod pointers;
mod segment;
mod slots;
mod steps;
mod store;

pub use segment::Segment;
pub use steps::Steps;
pub use store::SegmentStore;
