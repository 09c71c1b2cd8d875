//! Parts that are moved into slots and out of them.

ghost use Rattle.std.specs.Prelude.{◌≡◌, ◌≤◌, ℕ, map, replicate, slice_get, ◌<◌, vec_len, vec_capacity, Some, None, IfOk};
ghost use mathlib.Core.Option.{some};
ghost use lib.ListN.{get_elem?};
ghost use Rattle.std.specs.Slots.{slots_len, slots_items, IsFull};

use atomic_table::Closed;
use std::alloc::{AllocError, Global};

/// So many empty slots.
pub(crate) fn vacant<T: Drop>(alloc: Global, count: usize) -> Result<Vec<Option<T>>, AllocError>
    ensures { IfOk result (λ v. v.items ≡ replicate count None) }
{
    let mut slots = Vec::with_capacity(alloc, count)?;
    for _ in 0..count {
        slots.push(None)?;
    }
    Ok(slots)
}

/// The slots with all parts in their order. The capacity of `parts` stays.
pub(crate) fn filled<T: Drop>(mut slots: Vec<Option<T>>, parts: &mut Vec<T>) -> Vec<Option<T>>
    requires { slots.items ≡ replicate (vec_len parts.old) None }
    ensures slots { result.items ≡ map Some parts.old.items }
    ensures emptied { vec_len parts.new ≡ 0 }
    ensures capacity { vec_len parts.old ≤ vec_capacity parts.new }
{
    while let Some(part) = parts.pop() {
        let at = parts.len();
        slots[at] = Some(part);
    }
    slots
}

/// The parts out of the slots, in their order, within the capacity that is there.
pub(crate) fn emptied<T: Drop>(mut slots: Vec<Option<T>>, parts: &mut Vec<T>)
    requires none { vec_len parts.old ≡ 0 }
    requires capacity { vec_len slots ≤ vec_capacity parts.old }
    requires full { (i : ℕ) → i < vec_len slots
        → (x : T) × (slice_get slots.items i ≡ Some (Some x)) }
    ensures { map Some parts.new.items ≡ slots.items }
{
    for i in 0..slots.len() {
        let Some(part) = slots[i].take() else {
            unreachable!()
        };
        let Ok(()) = parts.push(part) else {
            unreachable!()
        };
    }
}

/// The parts of a closed table, in their order, within the capacity that is there.
pub(crate) fn brought_home<T: Drop>(
    mut closed: Closed<Option<T>, Global>,
    count: usize,
    mut parts: Vec<T>,
) -> Vec<T>
    requires slots { slots_len closed.slots ≡ count }
    requires filled { IsFull closed.slots }
    requires full { (k : ℕ) → k < count
        → (x : T) × (get_elem? (slots_items closed.slots) k ≡ some (Some x)) }
    requires none { vec_len parts ≡ 0 }
    requires capacity { count ≤ vec_capacity parts }
    ensures len { vec_len result ≡ count }
    ensures items { (k : ℕ) (x : T) → get_elem? (slots_items closed.slots) k ≡ some (Some x)
        → slice_get result.items k ≡ Some x }
{
    for k in 0..count {
        let Some(part) = closed.take(k) else {
            unreachable!()
        };
        let Ok(()) = parts.push(part) else {
            unreachable!()
        };
    }
    closed.free();
    parts
}
