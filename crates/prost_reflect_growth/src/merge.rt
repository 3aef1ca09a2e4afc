//! Items in order, with further ones put among them.

ghost use Rattle.std.specs.Prelude.{◌≡◌, ◌≤◌, length, IfOk};
ghost use Rattle.prost_reflect_growth.specs.Merging.{ArePassed, AreMerged};

use std::alloc::{AllocError, Global};

/// How many of the items in order a further one goes behind.
fn passed<T: Copy, B: Fn(&T, &T) -> bool>(items: &[T], item: &T, before: &B) -> usize
    requires { B.IsAlwaysCallable before.now }
    ensures bound { result ≤ length items.now }
    ensures passed { ArePassed B.Fn before.now items.now item.now result }
{
    let mut low = 0;
    let mut high = items.len();
    while low < high {
        let middle = low + (high - low) / 2;
        if before(item, &items[middle]) {
            high = middle;
        } else {
            low = middle + 1;
        }
    }
    low
}

/// Items in an order, with further ones put among them, each behind those that it does not stand before. `before` answers
/// whether the first of two items stands before the second.
///
/// # Errors
///
/// `AllocError` if out of memory.
pub fn merged<T: Copy, B: Fn(&T, &T) -> bool>(
    alloc: Global,
    old: &[T],
    new: &[T],
    before: &B,
) -> Result<Vec<T>, AllocError>
    requires { B.IsAlwaysCallable before.now }
    ensures { IfOk result (λ v. AreMerged B.Fn before.now old.now new.now v.items) }
{
    let mut items = Vec::with_capacity(alloc, old.len().saturating_add(new.len()))?;
    let mut left = old;
    for item in new {
        let count = passed(left, item, before);
        let (passed, further) = left.split_at(count);
        items.extend_from_slice(passed)?;
        items.push(*item)?;
        left = further;
    }
    items.extend_from_slice(left)?;
    Ok(items)
}
