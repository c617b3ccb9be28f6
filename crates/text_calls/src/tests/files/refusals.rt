use super::{
    ADDRESS, FILE, FILE_SIZE, LAST, MEMORY_SIZE, OFFSET, Row, TABLE_OFFSET, changed, file_of,
};
use elf_loader::{ElfError, read_image};
use std::test::Fail;

#[test]
fn cut_files_are_refused(rt: HostRuntime) {
    for (size, want) in [
        (0, Some(ElfError::TooShort)),
        (63, Some(ElfError::TooShort)),
        (64, Some(ElfError::TableOutside)),
        (119, Some(ElfError::TableOutside)),
        (120, Some(ElfError::SegmentOutside)),
        (131, Some(ElfError::SegmentOutside)),
        (132, None),
    ] {
        assert!(rt; size <= FILE.len());
        assert_eq!(rt;
            read_image(rt.alloc(), &FILE[..size]).err(),
            want,
            "of {size} bytes"
        );
    }
    let mut file = FILE;
    file[56] = 0;
    file[54] = 0;
    file[TABLE_OFFSET + 7] = 0xFF;
    assert_eq!(rt;
        read_image(rt.alloc(), &file[..64]).err(),
        Some(ElfError::NothingToLoad)
    );
    file[0] = 0;
    assert_eq!(rt;
        read_image(rt.alloc(), &file[..63]).err(),
        Some(ElfError::TooShort)
    );
}

#[test]
fn each_condition_has_its_refusal(rt: HostRuntime) {
    // the place of a byte, another in its stead, and the refusal
    for (at, byte, want) in [
        (0, 0x00, ElfError::BadMagic),
        (1, 0x46, ElfError::BadMagic),
        (2, 0x4D, ElfError::BadMagic),
        (3, 0x47, ElfError::BadMagic),
        (4, 0x01, ElfError::NotClass64),
        (5, 0x02, ElfError::NotLittle),
        (6, 0x00, ElfError::BadVersion),
        (6, 0x02, ElfError::BadVersion),
        (20, 0x00, ElfError::BadVersion),
        (23, 0x01, ElfError::BadVersion),
        (16, 0x03, ElfError::NotExec),
        (17, 0x01, ElfError::NotExec),
        (18, 0x3E, ElfError::NotRiscv),
        (19, 0x01, ElfError::NotRiscv),
        (54, 0x37, ElfError::BadEntrySize),
        (55, 0x01, ElfError::BadEntrySize),
        (56, 0x02, ElfError::TableOutside),
        (57, 0x01, ElfError::TableOutside),
        (56, 0x00, ElfError::NothingToLoad),
        (64, 0x03, ElfError::NeedsInterpreter),
        (64, 0x00, ElfError::NothingToLoad),
        (67, 0x01, ElfError::NothingToLoad),
        (96, 0x0D, ElfError::FileLarger),
        (104, 0x0B, ElfError::FileLarger),
        (72, 0x79, ElfError::SegmentOutside),
        (84, 0x40, ElfError::AddressOutside),
        (107, 0x10, ElfError::TooManyPages),
    ] {
        let mut file = FILE;
        assert!(rt; at < file.len());
        file[at] = byte;
        assert_eq!(rt;
            read_image(rt.alloc(), &file).err(),
            Some(want),
            "{byte:#x} at {at}"
        );
    }
}

#[test]
fn the_first_refusal_counts(rt: HostRuntime) -> Result<(), Fail> {
    // with each change and all behind it
    let changes = [
        (0, 0x00, ElfError::BadMagic),
        (4, 0x01, ElfError::NotClass64),
        (5, 0x02, ElfError::NotLittle),
        (20, 0x02, ElfError::BadVersion),
        (16, 0x03, ElfError::NotExec),
        (18, 0x3E, ElfError::NotRiscv),
        (54, 0x37, ElfError::BadEntrySize),
        (57, 0xFF, ElfError::TableOutside),
    ];
    for k in 0..changes.len() {
        let mut file = FILE;
        for (at, byte, _) in &changes[k..] {
            assert!(rt; *at < file.len());
            file[*at] = *byte;
        }
        assert_eq!(rt; read_image(rt.alloc(), &file).err(), Some(changes[k].2));
    }
    let rows: [(Row, ElfError); 5] = [
        ((3, 0, 0, 0, 0, 0), ElfError::NeedsInterpreter),
        ((1, 0, 0, 0, 1, 0), ElfError::FileLarger),
        ((1, 0, LAST, 0, 1, 1), ElfError::SegmentOutside),
        ((1, 0, 0, LAST, 0, 1), ElfError::AddressOutside),
        ((1, 0, 0, 0, 0, 0x20000000), ElfError::TooManyPages),
    ];
    for k in 0..rows.len() {
        let mut headers = Vec::new(rt.alloc());
        for (row, _) in &rows[k..] {
            headers.push(*row)?;
        }
        let file = file_of(rt.alloc(), &headers)?;
        assert_eq!(rt; read_image(rt.alloc(), &file).err(), Some(rows[k].1));
    }
    Ok(())
}

#[test]
fn no_sum_wraps(rt: HostRuntime) {
    // where the table, the segment's bytes and its memory begin, its sizes in the file and in memory, and the refusal
    for (table, offset, address, file_size, memory_size, want) in [
        (LAST, 120, 0x10078, 12, 12, Some(ElfError::TableOutside)),
        (
            LAST - 55,
            120,
            0x10078,
            12,
            12,
            Some(ElfError::TableOutside),
        ),
        (77, 120, 0x10078, 12, 12, Some(ElfError::TableOutside)),
        (64, LAST, 0x10078, 12, 12, Some(ElfError::SegmentOutside)),
        (
            64,
            LAST - 11,
            0x10078,
            12,
            12,
            Some(ElfError::SegmentOutside),
        ),
        (64, LAST, 0x10078, 0, 12, None),
        (64, 120, 0x10078, LAST, LAST, Some(ElfError::SegmentOutside)),
        (64, 120, 0x10078, LAST, 12, Some(ElfError::FileLarger)),
        (
            64,
            LAST,
            0x10078,
            LAST,
            LAST,
            Some(ElfError::SegmentOutside),
        ),
        (64, 120, LAST, 12, 12, Some(ElfError::AddressOutside)),
        (64, 120, LAST - 11, 12, 12, Some(ElfError::AddressOutside)),
        (64, 120, 0x10078, 12, LAST, Some(ElfError::AddressOutside)),
        (64, 120, LAST, 12, LAST, Some(ElfError::AddressOutside)),
        (64, 120, 0x10078, 0, 0, Some(ElfError::NothingToLoad)),
        // one byte into the stack's pages, and none
        (
            64,
            120,
            0x3FFFFEFFF5,
            12,
            12,
            Some(ElfError::AddressOutside),
        ),
        (64, 120, 0x3FFFFEFFF4, 12, 12, None),
    ] {
        let numbers = [
            (TABLE_OFFSET, table),
            (OFFSET, offset),
            (ADDRESS, address),
            (FILE_SIZE, file_size),
            (MEMORY_SIZE, memory_size),
        ];
        let file = changed(&rt, &numbers);
        assert_eq!(rt; read_image(rt.alloc(), &file).err(), want, "{numbers:?}");
    }
}

#[test]
fn an_image_has_at_most_65536_pages(rt: HostRuntime) -> Result<(), Fail> {
    let rows: [(&[Row], Option<ElfError>); 6] = [
        (&[(1, 4, 0, 0x10000, 0, 0x10000000)], None),
        (
            &[(1, 4, 0, 0x10000, 0, 0x10000001)],
            Some(ElfError::TooManyPages),
        ),
        (
            &[(1, 4, 0, 0x10FFF, 0, 0x10000000)],
            Some(ElfError::TooManyPages),
        ),
        (
            &[
                (1, 4, 0, 0x10000, 0, 0x8000000),
                (1, 4, 0, 0x8010000, 0, 0x8000000),
            ],
            None,
        ),
        (
            &[
                (1, 4, 0, 0x10000, 0, 0x10000000),
                (1, 4, 0, 0x10010000, 0, 1),
            ],
            Some(ElfError::TooManyPages),
        ),
        (
            &[(1, 4, 0, 0, 0, 0x3FFFFF0000)],
            Some(ElfError::TooManyPages),
        ),
    ];
    for (headers, want) in rows {
        let file = file_of(rt.alloc(), headers)?;
        match read_image(rt.alloc(), &file) {
            Ok(image) => {
                assert_eq!(rt; want, None);
                assert_eq!(rt; image.pages().len(), 65536);
            }
            Err(error) => assert_eq!(rt; Some(error), want),
        }
    }
    Ok(())
}
