//! Checkpoint images: how a process differs from a checkpoint, as bytes.
//!
//! The model of an image is its bytes, part by part (`specs/Image.antt`), and the deltas that have one (`specs/Fine.antt`). Bytes are an
//! image where they are that of a fine delta, and then they are so of one alone. What a delta makes of a memory, and which delta leads
//! from one memory to another, stand in `specs/Applied.antt`. No machine is asked.
//!
//! - `delta`: how a process differs: registers, state, and pages with the lines in which they differ
//! - `delta_pages`, `delta_lines`: those pages, and the lines of one of them
//! - `image_error`: why bytes can't be read as an image
//! - `encoding`: the image of a delta, and its length
//! - `decoding`: the delta of an image, read from front to back
#![tactic(auto)]

mod decoding;
mod delta;
mod delta_lines;
mod delta_pages;
mod encoding;
mod image_error;
#[cfg(test)]
mod tests;

pub use decoding::decode;
pub use delta::{Delta, DeltaPage};
pub use delta_lines::DeltaLines;
pub use delta_pages::DeltaPages;
pub use encoding::{MAGIC, PAGE_HEAD_BYTES, encode, length_by, length_of};
pub use image_error::ImageError;
