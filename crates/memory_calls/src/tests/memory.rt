use super::spaces::{Spaces, open};
use overlay_memory::SpaceError;
use ovl_io::Perms;
use page_dedup::DedupError;
use sizes::PAGE_BYTES;
use std::process::Abort;
use std::test::Fail;

// What is asked of a memory, or has to be there.
#[derive(Clone, Copy)]
enum Step {
    // a space without a page
    Add(u16),
    // of a space the first page and how many: on the zero frame, to be read and written, or to be read
    Map(u16, u64, u32),
    MapShut(u16, u64, u32),
    Unmap(u16, u64, u32),
    // of a space a page, whose bytes are all this one
    Place(u16, u64, u8),
    // of a space an address, and how many bytes become this one
    Write(u16, u64, usize, u8),
    // of space 1 a page and a line, whose byte 1 becomes this one where it stands
    SetByte1(u64, u8, u8),
    // of a space a page and a line, whose bytes become this one, whatever the permissions
    PutLine(u16, u64, u8, u8),
    // of a space a page that is put on one of another space, and the answer
    Dedup(u16, u64, u16, u64, Result<(), DedupError>),
    // all pages of a space that another one has too, and how many were put there
    DedupAll(u16, u16, u32),
    // a new space with the pages of one
    Fork(u16, u16),
    // the pages of a space in the place of those of another one, and the answer
    Restore(u16, u16, Result<(), SpaceError>),
    // units and own lines
    Counts(u32, u32),
    // how many pages a space has
    Pages(u16, u32),
    // how many a copy of its table has
    Copy(u16, u32),
    // of space 1 the first of so many pages that isn't there
    Absent(u64, u32, Option<u64>),
    // of a space the two bytes from an address on
    Two(u16, u64, [u8; 2]),
    // of two spaces a page of each: whether both are on one frame, which isn't the zero frame
    SameFrame(u16, u64, u16, u64, bool),
    // of a space a page that is to be read alone
    Shut(u16, u64),
}

// Asserts that the bytes from an address on are these two.
fn assert_two(rt: &impl Abort, spaces: &Spaces, space: u16, address: u64, bytes: [u8; 2]) {
    let mut into = [0xEE; 2];
    assert_eq!(rt; spaces.read(rt, space, address, &mut into), Ok(()));
    assert_eq!(rt; into, bytes, "at {address}");
}

// Stores bytes that are all equal.
fn write_equal(rt: &impl Abort, spaces: &mut Spaces, space: u16, address: u64, n: usize, byte: u8) {
    assert!(rt; n <= PAGE_BYTES);
    let bytes = [byte; PAGE_BYTES];
    let written = spaces.write(rt, space, address, &bytes[..n]);
    assert_eq!(rt; written, Ok(()), "at {address}");
}

// Pages come or go, or get bytes.
fn change_pages(rt: &impl Abort, spaces: &mut Spaces, step: Step) -> Result<(), Fail> {
    match step {
        Step::Map(space, page, n) => spaces.map_zero(rt, space, page, n, open())?,
        Step::MapShut(space, page, n) => spaces.map_zero(rt, space, page, n, Perms::R)?,
        Step::Unmap(space, page, n) => spaces.unmap(rt, space, page, n),
        Step::Place(space, page, byte) => {
            let placed = spaces.place_page(rt, space, page, open(), &[byte; PAGE_BYTES]);
            assert_eq!(rt; placed, Ok(()));
        }
        Step::Write(space, address, n, byte) => write_equal(rt, spaces, space, address, n, byte),
        Step::SetByte1(page, line, byte) => spaces.set_byte_1(rt, 1, page, line, byte),
        Step::PutLine(space, page, line, byte) => spaces.put_line(rt, space, page, line, byte),
        _ => {}
    }
    Ok(())
}

// A space comes, or gets other pages.
fn change_space(rt: &impl Abort, spaces: &mut Spaces, step: Step) -> Result<(), Fail> {
    match step {
        Step::Add(space) => spaces.add_space(rt, space)?,
        Step::Fork(from, to) => {
            assert_eq!(rt; spaces.fork(rt, from, to), Ok(()));
        }
        Step::Restore(saved, into, answer) => {
            assert_eq!(rt; spaces.restore(rt, saved, into), answer);
        }
        Step::Dedup(space, page, from, other, answer) => {
            assert_eq!(rt; spaces.deduplicate(rt, space, page, from, other), answer);
        }
        Step::DedupAll(space, from, count) => {
            assert_eq!(rt; spaces.deduplicate_all(rt, space, from), count);
        }
        Step::Copy(space, n) => assert_eq!(rt; spaces.copy_table(rt, space)?.len(), n),
        _ => {}
    }
    Ok(())
}

// Asserts what has to be there.
fn look(rt: &impl Abort, spaces: &Spaces, step: Step) {
    match step {
        Step::Counts(units, lines) => {
            assert_eq!(rt;
                (spaces.memory.units(), spaces.memory.lines()),
                (units, lines)
            );
        }
        Step::Pages(space, n) => assert_eq!(rt; spaces.memory.pages(space), n),
        Step::Absent(page, n, found) => {
            assert_eq!(rt; spaces.first_absent(rt, 1, page, n), found);
        }
        Step::Two(space, address, bytes) => assert_two(rt, spaces, space, address, bytes),
        Step::SameFrame(space, page, from, other, same) => {
            let frame = spaces.frame_of(rt, space, page);
            assert_eq!(rt;
                frame.is_some() && frame == spaces.frame_of(rt, from, other),
                same
            );
        }
        Step::Shut(space, page) => assert_eq!(rt; spaces.perms_of(rt, space, page), Perms::R),
        _ => {}
    }
}

// Does each step.
fn take_steps(rt: &impl Abort, spaces: &mut Spaces, steps: &[Step]) -> Result<(), Fail> {
    for &step in steps {
        change_pages(rt, spaces, step)?;
        change_space(rt, spaces, step)?;
        look(rt, spaces, step);
    }
    Ok(())
}

// A page that was placed is written where it stands, and one on the zero frame in its overlay.
const LENT: [Step; 9] = [
    Step::Add(1),
    Step::Place(1, 16, 0),
    Step::Map(1, 17, 1),
    Step::Write(1, 0x1_1000, 1, 0x07),
    Step::SetByte1(16, 0, 0x5A),
    Step::SetByte1(17, 0, 0x5A),
    Step::Two(1, 0x1_0000, [0x00, 0x5A]),
    Step::Two(1, 0x1_1000, [0x07, 0x5A]),
    Step::Counts(33, 1),
];

#[test]
fn lines_are_lent_where_they_stand(rt: HostRuntime) -> Result<(), Fail> {
    let mut spaces = Spaces::new(&rt, rt.alloc(), 3)?;
    take_steps(&rt, &mut spaces, &LENT)
}

const AMPLE: [Step; 5] = [
    Step::Add(1),
    Step::Map(1, 16, 3),
    Step::Copy(1, 3),
    Step::Fork(1, 2),
    Step::Pages(2, 3),
];

#[test]
fn what_takes_memory_is_done_where_there_is_memory(rt: HostRuntime) -> Result<(), Fail> {
    let mut spaces = Spaces::new(&rt, rt.alloc(), 2)?;
    take_steps(&rt, &mut spaces, &AMPLE)
}

// Space 2 has an overlay of 8 units, and two pages with frames of their own. It fits into space 1 once space 3 has no segment any more.
const RESTORED: [Step; 20] = [
    Step::Add(1),
    Step::Map(1, 16, 1),
    Step::Write(1, 0x1_0000, 1, 0x07),
    Step::Fork(1, 3),
    Step::Add(2),
    Step::Map(2, 16, 1),
    Step::Write(2, 0x1_0000, 31 * 64, 0x5A),
    Step::Place(2, 17, 0x09),
    Step::Place(2, 18, 0x0B),
    Step::Restore(2, 1, Err(SpaceError::Full(65, 64))),
    Step::Counts(58, 33),
    Step::Two(1, 0x1_0000, [0x07, 0x00]),
    Step::Add(4),
    Step::Restore(4, 3, Ok(())),
    Step::Restore(2, 1, Ok(())),
    Step::Counts(64, 62),
    Step::Two(1, 0x1_0000, [0x5A, 0x5A]),
    Step::Two(1, 0x1_1000, [0x09, 0x09]),
    Step::Restore(2, 1, Ok(())),
    Step::Counts(64, 62),
];

#[test]
fn a_space_gets_the_pages_of_another_one(rt: HostRuntime) -> Result<(), Fail> {
    let mut spaces = Spaces::new(&rt, rt.alloc(), 4)?;
    take_steps(&rt, &mut spaces, &RESTORED)
}

// A page of which 31 lines are stored, and one more; and two pages, of which one store brings 32 lines each.
const LARGE: [Step; 10] = [
    Step::Add(1),
    Step::Map(1, 16, 4),
    Step::Write(1, 0x1_0000, 31 * 64, 0x5A),
    Step::Counts(24, 31),
    Step::Write(1, 0x1_07FF, 1, 0x07),
    Step::Counts(32, 0),
    Step::Two(1, 0x1_07BF, [0x5A, 0x00]),
    Step::Write(1, 0x1_2800, PAGE_BYTES, 0x09),
    Step::Counts(64, 0),
    Step::Two(1, 0x1_2FFF, [0x09, 0x09]),
];

#[test]
fn a_page_of_32_own_lines_gets_a_frame(rt: HostRuntime) -> Result<(), Fail> {
    let mut spaces = Spaces::new(&rt, rt.alloc(), 4)?;
    take_steps(&rt, &mut spaces, &LARGE)
}

// How many own lines a page has: 1, 4, 8 or 16, so that its segment has 1, 2, 4 or 8 units.
fn own_lines(page: u64) -> u64 {
    match page % 4 {
        0 => 1,
        1 => 4,
        2 => 8,
        _ => 16,
    }
}

// The address of a line of one of the first 64 pages, and what is stored there.
fn line_address(page: u64, line: u64) -> u64 {
    4096 * (page % 64) + 64 * (line % 64)
}

fn line_byte(page: u64, line: u64) -> u8 {
    (page % 16 * 16 + line % 16) as u8
}

// Stores into the own lines of a page, at the first byte of each.
fn store_lines(rt: &impl Abort, spaces: &mut Spaces, page: u64) {
    'storing: for line in 0..own_lines(page) {
        let bytes = [line_byte(page, line)];
        assert_eq!(rt;
            spaces.write(rt, 1, line_address(page, line), &bytes),
            Ok(())
        );
    }
}

// Asserts that the own lines of a page have what was stored.
fn assert_lines(rt: &impl Abort, spaces: &Spaces, page: u64) {
    'reading: for line in 0..own_lines(page) {
        assert_two(
            rt,
            spaces,
            1,
            line_address(page, line),
            [line_byte(page, line), 0],
        );
    }
}

// Stores into 40 pages, with segments of four sizes, and takes every third away, so that free blocks lie between those that stay.
fn scatter(rt: &impl Abort, spaces: &mut Spaces) -> Result<(), Fail> {
    take_steps(rt, spaces, &[Step::Add(1), Step::Map(1, 0, 40)])?;
    'storing: for page in 0..40 {
        store_lines(rt, spaces, page);
    }
    'removing: for i in 0..13 {
        spaces.unmap(rt, 1, 3 * i, 1);
    }
    Ok(())
}

// What is read is as it was, before compaction and after it.
#[test]
fn compaction_leaves_what_is_read(rt: HostRuntime) -> Result<(), Fail> {
    let mut spaces = Spaces::new(&rt, rt.alloc(), 20)?;
    scatter(&rt, &mut spaces)?;
    let units = spaces.memory.units();
    'compacting: for _round in 0..2 {
        'reading: for i in 0..13 {
            assert_lines(&rt, &spaces, 3 * i + 1);
            assert_lines(&rt, &spaces, 3 * i + 2);
        }
        spaces.compact();
        assert_eq!(rt; spaces.memory.units(), units);
    }
    Ok(())
}

// Pages go from the middle of a run, over several runs, and at both ends of the pages that there may be; where they are mapped again they
// are zero.
const GOING: [Step; 3] = [Step::Add(1), Step::Map(1, 0, 8), Step::MapShut(1, 8, 8)];

const COMING: [Step; 7] = [
    Step::Unmap(1, 2, 3),
    Step::Absent(0, 16, Some(2)),
    Step::Map(1, 2, 3),
    Step::Two(1, 0x3000, [0, 0]),
    Step::Unmap(1, 0, 16),
    Step::Pages(1, 0),
    Step::Counts(16, 0),
];

#[test]
fn pages_go_and_come_again_as_zeros(rt: HostRuntime) -> Result<(), Fail> {
    let mut spaces = Spaces::new(&rt, rt.alloc(), 4)?;
    take_steps(&rt, &mut spaces, &GOING)?;
    store_lines(&rt, &mut spaces, 3);
    take_steps(&rt, &mut spaces, &COMING)
}

// Lines are put in a page that may be read alone: in an overlay of the zero page, until it is settled; and in one that is alone.
const PUT: [Step; 13] = [
    Step::Add(1),
    Step::MapShut(1, 16, 1),
    Step::Place(1, 17, 0x09),
    Step::PutLine(1, 16, 63, 0x5A),
    Step::Counts(33, 1),
    Step::Two(1, 0x1_0FBF, [0x00, 0x5A]),
    Step::PutLine(1, 17, 0, 0x07),
    Step::Counts(33, 1),
    Step::Two(1, 0x1_103F, [0x07, 0x09]),
    Step::Shut(1, 16),
    Step::SameFrame(1, 16, 1, 16, false),
    Step::Write(1, 0x1_1FFF, 1, 0x0B),
    Step::Two(1, 0x1_1FFE, [0x09, 0x0B]),
];

#[test]
fn lines_are_put_whatever_the_permissions(rt: HostRuntime) -> Result<(), Fail> {
    let mut spaces = Spaces::new(&rt, rt.alloc(), 8)?;
    take_steps(&rt, &mut spaces, &PUT)
}

// The 32nd line that is put in a page gives it a frame.
#[test]
fn the_32nd_line_that_is_put_gives_a_frame(rt: HostRuntime) -> Result<(), Fail> {
    let mut spaces = Spaces::new(&rt, rt.alloc(), 8)?;
    take_steps(&rt, &mut spaces, &[Step::Add(1), Step::MapShut(1, 16, 1)])?;
    for line in 0u8..31 {
        spaces.put_line(&rt, 1, 16, line, line);
    }
    let settled = [
        Step::Counts(24, 31),
        Step::PutLine(1, 16, 63, 0x5A),
        Step::Counts(32, 0),
        Step::SameFrame(1, 16, 1, 16, true),
        Step::Shut(1, 16),
        Step::Two(1, 0x1_077F, [0x1D, 0x1E]),
        Step::Two(1, 0x1_0FBF, [0x00, 0x5A]),
    ];
    take_steps(&rt, &mut spaces, &settled)
}

// Two pages with frames of their own, whose last line differs. One is put on the other; then it isn't alone. A third one differs in 32
// lines, until it differs in 31.
const SHARED: [Step; 26] = [
    Step::Add(1),
    Step::Place(1, 16, 0x09),
    Step::Add(2),
    Step::Place(2, 16, 0x09),
    Step::Write(2, 0x1_0FC0, 1, 0x5A),
    Step::Place(2, 17, 0x09),
    Step::Write(2, 0x1_1800, 2048, 0x11),
    Step::Counts(64, 0),
    Step::Dedup(2, 17, 1, 16, Err(DedupError::NotAlike(32))),
    Step::Write(2, 0x1_1800, 64, 0x09),
    Step::Add(3),
    Step::Place(3, 17, 0x0B),
    Step::Dedup(3, 17, 1, 16, Err(DedupError::NotAlike(64))),
    Step::Dedup(2, 16, 1, 16, Ok(())),
    Step::Counts(65, 1),
    Step::SameFrame(2, 16, 1, 16, true),
    Step::Two(2, 0x1_0FBF, [0x09, 0x5A]),
    Step::Two(1, 0x1_0FBF, [0x09, 0x09]),
    Step::Dedup(2, 16, 1, 16, Err(DedupError::NotAlone)),
    Step::Dedup(2, 17, 1, 16, Err(DedupError::FrameHere)),
    Step::Unmap(2, 16, 1),
    Step::Dedup(2, 17, 1, 16, Ok(())),
    Step::Counts(56, 31),
    Step::Two(2, 0x1_183F, [0x09, 0x11]),
    Step::Write(1, 0x1_0000, 1, 0x07),
    Step::Two(2, 0x1_1000, [0x09, 0x09]),
];

#[test]
fn a_page_shares_the_frame_of_another_one(rt: HostRuntime) -> Result<(), Fail> {
    let mut spaces = Spaces::new(&rt, rt.alloc(), 8)?;
    take_steps(&rt, &mut spaces, &SHARED)
}

// A page of zeros with one line of its own, and one that is placed: the line of the first is the second one's too, though both are seen
// alike there.
const ON_ZEROS: [Step; 10] = [
    Step::Add(1),
    Step::Map(1, 16, 2),
    Step::Write(1, 0x1_0000, 1, 0x07),
    Step::Add(2),
    Step::Place(2, 16, 0),
    Step::Write(2, 0x1_0000, 1, 0x07),
    Step::Dedup(2, 16, 1, 16, Ok(())),
    Step::Counts(18, 2),
    Step::Two(2, 0x1_0000, [0x07, 0x00]),
    Step::SameFrame(2, 16, 1, 16, false),
];

#[test]
fn a_page_of_zeros_is_shared_too(rt: HostRuntime) -> Result<(), Fail> {
    let mut spaces = Spaces::new(&rt, rt.alloc(), 8)?;
    take_steps(&rt, &mut spaces, &ON_ZEROS)
}

// Of five pages of space 2 one isn't in space 1, one is on the zero frame, one differs in all lines, and two are put there. The second
// time none is alone.
const ALL_SHARED: [Step; 19] = [
    Step::Add(1),
    Step::Place(1, 16, 0x09),
    Step::Place(1, 18, 0x09),
    Step::Map(1, 19, 1),
    Step::Place(1, 20, 0x0B),
    Step::Add(2),
    Step::Place(2, 16, 0x09),
    Step::Place(2, 17, 0x09),
    Step::Place(2, 18, 0x09),
    Step::Map(2, 19, 1),
    Step::Place(2, 20, 0x0D),
    Step::Write(2, 0x1_2000, 1, 0x5A),
    Step::Counts(128, 0),
    Step::DedupAll(2, 1, 2),
    Step::Counts(97, 1),
    Step::SameFrame(2, 18, 1, 18, true),
    Step::Two(2, 0x1_2000, [0x5A, 0x09]),
    Step::DedupAll(2, 1, 0),
    Step::Counts(97, 1),
];

#[test]
fn all_pages_share_frames_that_can(rt: HostRuntime) -> Result<(), Fail> {
    let mut spaces = Spaces::new(&rt, rt.alloc(), 8)?;
    take_steps(&rt, &mut spaces, &ALL_SHARED)
}
