use mark_levels::{End, Level};
use std::test::Fail;

#[test]
fn bytes_with_a_bit_are_found_from_both_ends(rt: HostRuntime) -> Result<(), Fail> {
    let mut level = Level::new(rt.alloc(), 300)?;
    assert_eq!(rt; level.nearest(1, End::Low), None);
    level.set(37, 2);
    level.set(300, 6);
    level.set(4799, 4);
    assert_eq!(rt; level.nearest(0, End::Low), None);
    assert_eq!(rt; level.nearest(1, End::Low), Some(37));
    assert_eq!(rt; level.nearest(1, End::High), Some(300));
    assert_eq!(rt; level.nearest(2, End::High), Some(4799));
    assert_eq!(rt; level.least(0, 8), Some(1));
    level.set(37, 0);
    level.set(300, 0);
    assert_eq!(rt; level.nearest(1, End::Low), None);
    assert_eq!(rt; level.least(0, 8), Some(2));
    assert_eq!(rt; level.least(0, 2), None);
    assert_eq!(rt; level.get(4799), 4);
    assert_eq!(rt; level.get(4800), 0);
    Ok(())
}
