use super::FolderShelf;
use crate::shelf::ShelfError;
use crate::tests::assert_fetch;
use std::fs;
use std::fs::File;
use std::test::Fail;

#[test]
fn tells_a_given_a_missing_and_a_failed_file_apart(rt: HostRuntime) -> Result<(), Fail> {
    let present = "folder_shelf_present";
    let bytes: &[u8] = b"\x7fELF\0\xff";
    fs::write(&rt, present, bytes)?;
    let mut shelf = FolderShelf::new(&rt);
    // A name that isn't text fails, and so does the reading of a folder.
    let rows: [(&[u8], Result<&[u8], ShelfError>, u64); 6] = [
        (present.as_bytes(), Ok(bytes), 0),
        (b"folder_shelf_absent", Err(ShelfError::Missing), 0),
        (present.as_bytes(), Ok(bytes), 0),
        (b"folder_shelf_\xff", Err(ShelfError::Failed), 1),
        (b".", Err(ShelfError::Failed), 2),
        (present.as_bytes(), Ok(bytes), 2),
    ];
    for (name, want, faults) in rows {
        assert_fetch(&rt, rt.alloc(), &mut shelf, name, want);
        assert_eq!(rt; shelf.faults, faults, "after {name:?}");
    }
    fs::remove_file(&rt, present)?;
    Ok(())
}

#[test]
fn gives_at_most_16_mib(rt: HostRuntime) -> Result<(), Fail> {
    let name = "folder_shelf_long";
    let file = File::create(&rt, name)?;
    let mut shelf = FolderShelf::new(&rt);
    file.set_len(16_777_217)?;
    assert_fetch(
        &rt,
        rt.alloc(),
        &mut shelf,
        name.as_bytes(),
        Err(ShelfError::TooLong),
    );
    file.set_len(16_777_216)?;
    let zeros = Vec::from_elem(rt.alloc(), 0u8, 16_777_216)?;
    assert_fetch(
        &rt,
        rt.alloc(),
        &mut shelf,
        name.as_bytes(),
        Ok(zeros.as_slice()),
    );
    assert_eq!(rt; shelf.faults, 0);
    fs::remove_file(&rt, name)?;
    Ok(())
}
