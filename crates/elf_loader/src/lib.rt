//! Static ELF-64 executables for RISC-V: which files are taken, and the memory image that a file has.
//!
//! The model of an `Image` is its entry, its pages in ascending order, and the headers of its segments;
//! `IsImageOf` says that it is the image of a file. The image is defined address by address (the last
//! segment to hold an address gives its byte); the code goes through the segments.
//!
//! - `header`: the numbers in a file, and a program header
//! - `refusals`: the first reason by which a file isn't taken, and its segments to load
//! - `sweep`: the pages that segments touch, with one way over the segments
//! - `layers`: which segments give each page its bytes
//! - `image`: `read_image`, `Image` with `entry`, `pages` and `fill_page`, `ImagePage`, `ElfError`
#![tactic(auto)]

mod header;
mod image;
mod layers;
mod refusals;
mod sweep;

pub use header::ProgramHeader;
pub use image::{ElfError, Image, ImagePage, read_image};
