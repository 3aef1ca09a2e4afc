//! A map from numbers that is parted into runs.

use prost_reflect_maps::sorted_map::SortedMap;
use std::test::Fail;

/// The multiples of 617 by 1009 leave each number below 1009, in an order that neither rises nor falls.
#[test]
fn numbers_in_any_order_are_given_in_order(rt: HostRuntime) -> Result<(), Fail> {
    let mut map: SortedMap<u32> = SortedMap::new(rt.alloc());
    for step in 0..1009_u32 {
        map.insert(step * 617 % 1009, step)?;
    }
    let mut expected: u32 = 0;
    for item in map.iter() {
        assert_eq!(rt; item.0, expected);
        expected = expected.wrapping_add(1);
    }
    assert_eq!(rt; expected, 1009);
    for item in map.iter_back() {
        expected = expected.wrapping_sub(1);
        assert_eq!(rt; item.0, expected);
    }
    assert_eq!(rt; expected, 0);
    Ok(())
}

/// Each number is taken with what was put there, in the order in which they were put.
#[test]
fn each_number_is_taken_once(rt: HostRuntime) -> Result<(), Fail> {
    let mut map: SortedMap<u32> = SortedMap::new(rt.alloc());
    for step in 0..1009_u32 {
        map.insert(step * 617 % 1009, step)?;
    }
    for step in 0..1009_u32 {
        let number = step * 617 % 1009;
        assert!(rt; map.remove(number) == Some(step));
        assert!(rt; map.get(number).is_none());
    }
    assert!(rt; map.iter().next().is_none());
    Ok(())
}
