//! The sizes of the machine, each said once: code and specs of all crates cite these names.
//!
//! A line is what an overlay holds or lacks, a page has 64 of them, a frame holds one page, and a unit is
//! what blocks of frames are counted in.
#![tactic(auto)]

/// Bytes of a line.
pub const LINE_BYTES: usize = 64;

/// Lines of a page, and of a frame.
pub const PAGE_LINES: usize = 64;

/// Bytes of a page, and of a frame.
pub const PAGE_BYTES: usize = LINE_BYTES * PAGE_LINES;

/// Lines of a unit.
pub const UNIT_LINES: u32 = 4;

/// Units of a frame.
pub const FRAME_UNITS: u32 = PAGE_LINES as u32 / UNIT_LINES;

/// The order of a block that is a frame: it has two to this power of units.
pub const FRAME_ORDER: u8 = 4;

/// The most frames that a machine may have.
pub const MOST_FRAMES: u32 = 1 << 16;

/// The most units that a machine may have.
pub const MOST_UNITS: u32 = FRAME_UNITS * MOST_FRAMES;

/// The most frames of a region: those of a machine, and one for scratch.
pub const MOST_REGION_FRAMES: u32 = MOST_FRAMES + 1;

/// The most lines of a region.
pub const MOST_REGION_LINES: u32 = PAGE_LINES as u32 * MOST_REGION_FRAMES;

/// User addresses are below this.
pub const ADDRESS_END: u64 = 1 << 38;

/// Page numbers are below this.
pub const PAGE_END: u64 = ADDRESS_END / PAGE_BYTES as u64;

/// Slots of a node of a page table: one for each value of a digit of a page's number, which has four.
pub const TABLE_SLOTS: u64 = 512;

/// Pages of the stack, the last ones below the end of user addresses.
pub const STACK_PAGES: u64 = 16;

/// The first page of the stack.
pub const STACK_PAGE: u64 = PAGE_END - STACK_PAGES;

/// The address at which the stack begins; no file's bytes lie there or above.
pub const STACK_ADDRESS: u64 = STACK_PAGE * PAGE_BYTES as u64;

/// What the stack pointer is after a load.
pub const STACK_POINTER: u64 = ADDRESS_END - 16;

/// The most pages of an image, the stack's aside.
pub const MOST_IMAGE_PAGES: usize = 1 << 16;

/// The most pages of a space.
pub const MOST_SPACE_PAGES: u32 = 1 << 17;

/// The greatest number of a space, and of a process.
pub const LAST_SPACE: u16 = (1 << 15) - 1;

/// The most bytes of a file's name.
pub const MOST_FILE_NAME: usize = 255;

/// The most bytes of a file.
pub const MOST_FILE_BYTES: usize = 1 << 24;

/// The most bytes of a script.
pub const MOST_SCRIPT_BYTES: usize = 1 << 20;

/// The most lines of a script.
pub const MOST_SCRIPT_LINES: usize = 1 << 16;

/// The most bytes that a process writes in one turn.
pub const MOST_WRITTEN: usize = PAGE_BYTES;
