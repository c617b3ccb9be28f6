//! The names of overlays: each page of each space has one, and it is an address that no process has.
//!
//! The model of an `OverlayPage` is its number: bit 63 is set, bits 48 to 62 are the space, bits 12 to 47 the
//! page, and the others 0. The address of a byte of the overlay has the offset in those bits.
//!
//! - `page`: the name, from a space and a page, and from an address
#![tactic(auto)]

mod page;

pub use page::OverlayPage;
