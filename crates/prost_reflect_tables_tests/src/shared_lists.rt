//! Lists whose clones share what stands in them: what each call gives.

use prost_reflect_shared::shared_list::SharedList;
use std::test::Fail;

/// The numbers below `count`, pushed one by one.
fn pushed(rt: &HostRuntime, count: u32) -> Result<SharedList<u32>, Fail> {
    let mut list = SharedList::new(rt.alloc());
    for number in 0..count {
        list.push(number)?;
    }
    Ok(list)
}

#[test]
fn pushes_and_gets(rt: HostRuntime) -> Result<(), Fail> {
    let list = pushed(&rt, 1000)?;
    assert_eq!(rt; list.len(), 1000);
    assert!(rt; !list.is_empty());
    for place in 0..1000usize {
        assert_eq!(rt; list.get(place).copied(), Some(place as u32));
    }
    assert_eq!(rt; list.get(1000), None);
    assert_eq!(rt; list.get(usize::MAX), None);
    Ok(())
}

#[test]
fn begins_empty(rt: HostRuntime) -> Result<(), Fail> {
    let list: SharedList<u32> = SharedList::new(rt.alloc());
    assert_eq!(rt; list.len(), 0);
    assert!(rt; list.is_empty());
    assert_eq!(rt; list.get(0), None);
    Ok(())
}

#[test]
fn clones_stay(rt: HostRuntime) -> Result<(), Fail> {
    let mut list = pushed(&rt, 1000)?;
    let copy = list.clone()?;
    list.push(7)?;
    assert_eq!(rt; list.len(), 1001);
    list.set(100, 8)?;
    assert_eq!(rt; list.len(), 1001);
    list.set(999, 9)?;
    for place in 0..1000usize {
        let item = match place {
            100 => 8,
            999 => 9,
            _ => place as u32,
        };
        assert_eq!(rt; list.get(place).copied(), Some(item));
        assert_eq!(rt; copy.get(place).copied(), Some(place as u32));
    }
    assert_eq!(rt; list.get(1000).copied(), Some(7));
    assert_eq!(rt; copy.len(), 1000);
    Ok(())
}

#[test]
fn takes_a_vec(rt: HostRuntime) -> Result<(), Fail> {
    for count in [0u32, 1, 63, 64, 65, 128, 300] {
        let mut items = Vec::new(rt.alloc());
        for number in 0..count {
            items.push(number)?;
        }
        let list = SharedList::from_vec(rt.alloc(), items)?;
        let mut next = 0u32;
        for item in &list {
            assert_eq!(rt; *item, next);
            next = next.wrapping_add(1);
        }
        assert_eq!(rt; next, count);
    }
    Ok(())
}

/// A call that is refused changes nothing, and the next one is not refused: at most one allocation of a run fails.
#[test]
fn refusals_change_nothing(rt: HostRuntime) -> Result<(), Fail> {
    let mut list = SharedList::new(rt.alloc());
    for number in 0..150u32 {
        if list.push(number).is_err() {
            assert_eq!(rt; list.len(), number as usize);
            list.push(number)?;
        }
    }
    let copy = match list.clone() {
        Ok(copy) => copy,
        Err(_) => list.clone()?,
    };
    for place in [3usize, 63, 64, 127, 128, 149] {
        assert!(rt; place < list.len());
        if list.set(place, 1000).is_err() {
            assert_eq!(rt; list.get(place), copy.get(place));
            assert!(rt; place < list.len());
            list.set(place, 1000)?;
        }
        assert_eq!(rt; list.get(place).copied(), Some(1000));
    }
    for place in 0..150usize {
        assert_eq!(rt; copy.get(place).copied(), Some(place as u32));
    }
    Ok(())
}
