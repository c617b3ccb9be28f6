use overlay_address::OverlayPage;
use std::process::Abort;
use std::test::Fail;

// Asserts that a page of a space and an offset have this address, and that it has them.
fn assert_address(rt: &impl Abort, space: u16, page: u64, offset: u16, address: u64) {
    assert!(rt; space < 1 << 15 && page < 1 << 36 && offset < 4096);
    let overlay = OverlayPage::of(space, page);
    assert_eq!(rt; (overlay.space(), overlay.page()), (space, page));
    assert_eq!(rt; overlay.address(offset), address);
    assert_eq!(rt; OverlayPage::from_address(address), Some((overlay, offset)));
}

#[test]
fn an_address_has_space_page_and_offset(rt: HostRuntime) -> Result<(), Fail> {
    assert_address(&rt, 1, 16, 64, 0x8001_0000_0001_0040);
    assert_address(&rt, 0, 0, 0, 0x8000_0000_0000_0000);
    assert_address(&rt, 0x7FFF, 0xF_FFFF_FFFF, 0xFFF, 0xFFFF_FFFF_FFFF_FFFF);
    assert_address(&rt, 0x7FFF, 0, 1, 0xFFFF_0000_0000_0001);
    assert_address(&rt, 0, 0xF_FFFF_FFFF, 0, 0x8000_FFFF_FFFF_F000);
    Ok(())
}

#[test]
fn an_address_of_a_process_is_of_no_overlay(rt: HostRuntime) -> Result<(), Fail> {
    for address in [0, 0x1_0040, 0x0001_0000_0001_0040, 0x7FFF_FFFF_FFFF_FFFF] {
        assert_eq!(rt;
            OverlayPage::from_address(address),
            None,
            "address {address}"
        );
    }
    Ok(())
}
