use by_number::ByNumber;
use std::process::Abort;
use std::test::Fail;

#[test]
fn numbers_get_values_and_lose_them(rt: HostRuntime) -> Result<(), Fail> {
    let mut values = ByNumber::new(rt.alloc());
    assert!(rt; !values.has(0));
    assert_eq!(rt; values.next_from(0), None);
    values.insert(65_535, 7u32)?;
    values.insert(3, 8)?;
    values.insert(3, 9)?;
    assert!(rt; values.has(65_535));
    assert_eq!(rt;
        (values.get(3).copied(), values.get(4).copied()),
        (Some(9), None)
    );
    match values.get_mut(65_535) {
        Some(value) => *value = 10,
        None => panic!(rt; "no value"),
    }
    assert!(rt; values.get_mut(4).is_none());
    assert_eq!(rt; values.get(65_535).copied(), Some(10));
    assert_eq!(rt;
        (values.next_from(3), values.next_from(4)),
        (Some(3), Some(65_535))
    );
    values.remove(65_535);
    values.remove(9);
    assert_eq!(rt; (values.next_from(0), values.next_from(4)), (Some(3), None));
    Ok(())
}
