//! Setting, writing, taking and clearing the values of a message with oneofs.

ghost use Rattle.std.specs.Prelude.{◌≡◌};
ghost use Rattle.prost_reflect_fields.specs.Known.{known_of, is_known};

use crate::choices::choices;
use prost_reflect_fields::field_set::FieldSet;
use prost_reflect_pool::PooledType;
use std::test::Fail;

fn is_known(descriptor: &PooledType, number: u32) -> bool
    ensures { result ≡ is_known (known_of descriptor.now) number }
{
    descriptor.field_table(number).is_some()
}

fn set(slots: &mut FieldSet<i32>, number: u32, value: i32) -> Result<(), Fail> {
    if !is_known(slots.message_type(), number) {
        return Err(Fail::from("no field of the number"));
    }
    slots.set(number, value)?;
    Ok(())
}

/// Adds to the value, which is 100 where there was none.
fn add(slots: &mut FieldSet<i32>, number: u32, amount: i32) -> Result<(), Fail> {
    if !is_known(slots.message_type(), number) {
        return Err(Fail::from("no field of the number"));
    }
    let value = slots.get_mut_or(number, 100)?;
    *value = value.wrapping_add(amount);
    Ok(())
}

/// 2, 4 and 9 are of one oneof.
#[test]
fn a_member_of_a_oneof_replaces_another(rt: HostRuntime) -> Result<(), Fail> {
    let mut slots = FieldSet::new(rt.alloc(), choices(rt.alloc())?);
    set(&mut slots, 2, 20)?;
    set(&mut slots, 4, 40)?;
    assert_eq!(rt; slots.get(2).copied(), None);
    add(&mut slots, 9, 2)?;
    assert_eq!(rt; slots.get(4).copied(), None);
    assert_eq!(rt; slots.get(9).copied(), Some(102));
    Ok(())
}

#[test]
fn a_value_is_taken_or_cleared(rt: HostRuntime) -> Result<(), Fail> {
    let mut slots = FieldSet::new(rt.alloc(), choices(rt.alloc())?);
    set(&mut slots, 1, 10)?;
    set(&mut slots, 6, 60)?;
    assert_eq!(rt; slots.take(1), Some(10));
    slots.clear(6);
    assert!(rt; slots.slots().next().is_none());
    Ok(())
}
