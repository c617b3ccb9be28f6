use super::{ENTRY, FILE, LAST, Row, changed, file_of};
use bitflags::Flags;
use elf_loader::{ElfError, ImagePage, read_image};
use ovl_io::Perms;
use std::alloc::Global;
use std::process::Abort;
use std::test::Fail;

// A page that is wanted: its number, its permissions, and whether it is stored.
type Page = (u64, u8, bool);

// Bytes that are wanted: their address, and where they stand in the file. All others are 0.
type Piece = (u64, usize, usize);

// The byte that is wanted at an address.
fn byte_at(file: &[u8], pieces: &[Piece], address: u64) -> u8 {
    for &(start, from, to) in pieces {
        let at = from.saturating_add(address.wrapping_sub(start) as usize);
        if start <= address && at < to {
            return file.get(at).copied().unwrap_or(0);
        }
    }
    0
}

// Asserts what image a file has.
fn assert_image(
    rt: &impl Abort,
    alloc: Global,
    file: &[u8],
    pages: &[Page],
    pieces: &[Piece],
) -> Result<(), ElfError> {
    let image = read_image(alloc, file)?;
    assert_eq!(rt; image.pages().len(), pages.len(), "{pieces:?}");
    for i in 0..pages.len() {
        let (page, perms, stored) = pages[i];
        assert!(rt; page < 0x4000000);
        let perms = Perms::from_bits_retain(perms);
        assert_eq!(rt;
            image.pages()[i],
            ImagePage {
                page,
                perms,
                stored
            },
            "{pieces:?}"
        );
        let mut out = [0xFF; 4096];
        image.fill_page(file, image.pages()[i].page, &mut out);
        for j in 0..out.len() {
            let at = page * 4096 + j as u64;
            assert_eq!(rt; out[j], byte_at(file, pieces, at), "at {at:#x}");
        }
    }
    Ok(())
}

#[test]
fn one_segment_is_laid_into_its_pages(rt: HostRuntime) -> Result<(), Fail> {
    assert_image(
        &rt,
        rt.alloc(),
        &FILE,
        &[(16, 5, true)],
        &[(0x10078, 120, 132)],
    )?;
    assert_eq!(rt; read_image(rt.alloc(), &FILE)?.entry(), 0x10078);
    let file = changed(&rt, &[(ENTRY, LAST)]);
    assert_eq!(rt; read_image(rt.alloc(), &file)?.entry(), LAST);
    // the address, the sizes in the file and in memory, and the pages
    let rows: [(u64, u64, u64, &[Page]); 9] = [
        (0x10FFF, 2, 2, &[(16, 6, true), (17, 6, true)]),
        (0x10FF0, 16, 16, &[(16, 6, true)]),
        (0x10FF1, 16, 16, &[(16, 6, true), (17, 6, true)]),
        (
            0x10FFF,
            1,
            4098,
            &[(16, 6, true), (17, 6, false), (18, 6, false)],
        ),
        (0x10FFE, 4, 4096, &[(16, 6, true), (17, 6, true)]),
        (0x11000, 1, 4096, &[(17, 6, true)]),
        (0, 1, 1, &[(0, 6, true)]),
        (0x3FFFFEFFF0, 16, 16, &[(0x3FFFFEF, 6, true)]),
        (0x20000, 0, 1, &[(32, 6, false)]),
    ];
    for (address, file_size, memory_size, pages) in rows {
        let file = file_of(rt.alloc(), &[(1, 6, 64, address, file_size, memory_size)])?;
        assert!(rt; file_size <= 16);
        assert_image(
            &rt,
            rt.alloc(),
            &file,
            pages,
            &[(address, 64, 64 + file_size as usize)],
        )?;
    }
    // p_flags, and the permissions
    for (flags, perms) in [
        (0, 0),
        (1, 1),
        (2, 6),
        (3, 7),
        (4, 4),
        (5, 5),
        (6, 6),
        (7, 7),
        (0xFFFFFFF8, 0),
        (0x80000009, 1),
    ] {
        let file = file_of(rt.alloc(), &[(1, flags, 64, 0x10078, 2, 2)])?;
        assert_image(
            &rt,
            rt.alloc(),
            &file,
            &[(16, perms, true)],
            &[(0x10078, 64, 66)],
        )?;
    }
    Ok(())
}

// Two segments that share bytes, and a third that shares bytes with both.
const FIRST: Row = (1, 4, 64, 0x10000, 8, 8);

const SECOND: Row = (1, 1, 72, 0x10004, 8, 8);

const THIRD: Row = (1, 2, 66, 0x10006, 4, 4);

// Two that share a page, of which the second has a page without bytes of the file too.
const LOW: Row = (1, 4, 64, 0x10000, 4, 4);

const HIGH: Row = (1, 2, 68, 0x10FF0, 4, 0x1010);

const LOW_AND_HIGH: &[Page] = &[(16, 6, true), (17, 6, false)];

// Three pages without bytes of the file, and one byte in the middle one.
const WIDE: Row = (1, 4, LAST, 0x10000, 0, 0x3000);

const MIDDLE: Row = (1, 3, 64, 0x11345, 1, 1);

const WIDE_AND_MIDDLE: &[Page] = &[(16, 4, false), (17, 7, true), (18, 4, false)];

// Apart from the first, and lower or higher.
const BESIDE: Row = (1, 1, 64, 0x11000, 1, 1);

const FAR: Row = (1, 4, 64, 0x50000, 1, 1);

// None of these adds anything.
const NOWHERE: Row = (1, 7, LAST, LAST, 0, 0);

const OTHER_KIND: Row = (2, 7, LAST, LAST, LAST, LAST);

#[test]
fn the_last_segment_gives_a_byte_and_all_give_permissions(rt: HostRuntime) -> Result<(), Fail> {
    let rows: [(&[Row], &[Page], &[Piece]); 13] = [
        (
            &[FIRST, SECOND],
            &[(16, 5, true)],
            &[(0x10004, 72, 80), (0x10000, 64, 68)],
        ),
        (
            &[SECOND, FIRST],
            &[(16, 5, true)],
            &[(0x10000, 64, 72), (0x10008, 76, 80)],
        ),
        (
            &[FIRST, SECOND, THIRD],
            &[(16, 7, true)],
            &[(0x10006, 66, 70), (0x10004, 72, 80), (0x10000, 64, 68)],
        ),
        (
            &[THIRD, SECOND, FIRST],
            &[(16, 7, true)],
            &[(0x10000, 64, 72), (0x10008, 76, 80)],
        ),
        (
            &[FIRST, THIRD, SECOND],
            &[(16, 7, true)],
            &[(0x10004, 72, 80), (0x10000, 64, 68)],
        ),
        (
            &[LOW, HIGH],
            LOW_AND_HIGH,
            &[(0x10000, 64, 68), (0x10FF0, 68, 72)],
        ),
        (
            &[HIGH, LOW],
            LOW_AND_HIGH,
            &[(0x10000, 64, 68), (0x10FF0, 68, 72)],
        ),
        (&[WIDE, MIDDLE], WIDE_AND_MIDDLE, &[(0x11345, 64, 65)]),
        (&[MIDDLE, WIDE], WIDE_AND_MIDDLE, &[(0x11345, 64, 65)]),
        (
            &[WIDE, WIDE],
            &[(16, 4, false), (17, 4, false), (18, 4, false)],
            &[],
        ),
        (
            &[NOWHERE, FIRST, OTHER_KIND],
            &[(16, 4, true)],
            &[(0x10000, 64, 72)],
        ),
        (
            &[BESIDE, FIRST],
            &[(16, 4, true), (17, 1, true)],
            &[(0x10000, 64, 72), (0x11000, 64, 65)],
        ),
        (
            &[FAR, FIRST],
            &[(16, 4, true), (80, 4, true)],
            &[(0x10000, 64, 72), (0x50000, 64, 65)],
        ),
    ];
    for (headers, pages, pieces) in rows {
        let file = file_of(rt.alloc(), headers)?;
        assert_image(&rt, rt.alloc(), &file, pages, pieces)?;
    }
    Ok(())
}

// The headers of attributes, text, data with bss, and a stack mark, as a linker lays them out.
const LINKED: [Row; 4] = [
    (0x70000003, 4, 0x198, 0, 0x20, 0),
    (1, 5, 0, 0x10000, 0x190, 0x190),
    (1, 6, 0x190, 0x11190, 8, 0x2000),
    (0x6474E551, 6, 0, 0, 0, 0),
];

#[test]
fn a_linked_file_has_its_pages(rt: HostRuntime) -> Result<(), Fail> {
    let mut head = FILE;
    head[ENTRY..ENTRY + 8].copy_from_slice(&0x10120u64.to_le_bytes());
    head[56] = 4;
    let table = file_of(rt.alloc(), &LINKED)?;
    let mut file = head[..64].to_vec(rt.alloc())?;
    assert!(rt; table.len() >= 80);
    file.extend_from_slice(&table[80..])?;
    file.resize(400, 0)?;
    file.extend_from_slice(&[1, 2, 3, 4, 5, 6, 7, 8])?;
    assert_eq!(rt; file.len(), 408);
    assert_eq!(rt; read_image(rt.alloc(), &file)?.entry(), 0x10120);
    let pages = [(16, 5, true), (17, 6, true), (18, 6, false), (19, 6, false)];
    assert_image(
        &rt,
        rt.alloc(),
        &file,
        &pages,
        &[(0x10000, 0, 400), (0x11190, 400, 408)],
    )?;
    Ok(())
}

#[test]
fn the_last_segment_to_fill_a_page_hides_those_before_it(rt: HostRuntime) -> Result<(), Fail> {
    // two pages, the first of them once more from other bytes, and bytes across both
    let both: Row = (1, 4, 0x1000, 0x10000, 0x2000, 0x2000);
    let one: Row = (1, 1, 0x1800, 0x10000, 0x1000, 0x1000);
    let across: Row = (1, 2, 0x1100, 0x10FF0, 0x20, 0x20);
    let rows: [(&[Row], &[Piece]); 3] = [
        (
            &[both, one, across],
            &[
                (0x10FF0, 0x1100, 0x1120),
                (0x10000, 0x1800, 0x2800),
                (0x11000, 0x2000, 0x3000),
            ],
        ),
        (&[across, one, both], &[(0x10000, 0x1000, 0x3000)]),
        (
            &[one, both, across],
            &[(0x10FF0, 0x1100, 0x1120), (0x10000, 0x1000, 0x3000)],
        ),
    ];
    for (headers, pieces) in rows {
        let mut file = file_of(rt.alloc(), headers)?;
        for i in file.len()..0x3000 {
            file.push((i % 251) as u8)?;
        }
        assert_image(
            &rt,
            rt.alloc(),
            &file,
            &[(16, 7, true), (17, 6, true)],
            pieces,
        )?;
    }
    Ok(())
}
