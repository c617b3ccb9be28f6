use crate::NamedList;
use std::alloc::Global;
use std::test::Fail;

/// The names of these tests, as they are entered.
const NAMES: [&[u8]; 4] = [b"base", b"after load", b"b", b""];

/// Enters each of the names that no entry has, with its place in the table as value.
fn enter_all(alloc: Global, list: &mut NamedList<u32>) -> Result<(), Fail> {
    for n in 0usize..4 {
        let known = list.get(NAMES[n]);
        match known {
            Some(_) => {}
            None => list.enter(alloc, NAMES[n], n as u32)?,
        }
    }
    Ok(())
}

/// Whether these values stand in the list, in this order, each found by its name too.
fn has_values(list: &NamedList<u32>, values: &[u32]) -> bool {
    for k in 0..values.len() {
        match list.at(k) {
            Some((name, value)) => {
                let found = list.get(name);
                if *value != values[k] || found != Some(&values[k]) {
                    return false;
                }
            }
            None => return false,
        }
    }
    list.at(values.len()).is_none()
}

#[test]
fn entries_are_found_by_name_and_by_place(rt: HostRuntime) -> Result<(), Fail> {
    let mut list = NamedList::new(rt.alloc());
    assert!(rt; list.get(b"base").is_none());
    assert!(rt; list.at(0).is_none());
    enter_all(rt.alloc(), &mut list)?;
    assert!(rt; has_values(&list, &[0, 1, 2, 3]));
    assert!(rt; list.get(b"bas").is_none());
    Ok(())
}

#[test]
fn the_others_keep_their_order(rt: HostRuntime) -> Result<(), Fail> {
    let mut list = NamedList::new(rt.alloc());
    enter_all(rt.alloc(), &mut list)?;
    assert_eq!(rt; list.remove(b"after load"), Some(1));
    assert!(rt; has_values(&list, &[0, 2, 3]));
    assert_eq!(rt; list.remove(b"base"), Some(0));
    assert_eq!(rt; list.remove(b"base"), None);
    assert!(rt; has_values(&list, &[2, 3]));
    enter_all(rt.alloc(), &mut list)?;
    assert!(rt; has_values(&list, &[2, 3, 0, 1]));
    assert_eq!(rt; list.remove(b""), Some(3));
    assert_eq!(rt; list.remove(b"after load"), Some(1));
    assert!(rt; has_values(&list, &[2, 0]));
    Ok(())
}
