//! Lists that grow by one item.

ghost use Rattle.std.specs.Prelude.{◌≡◌, ◌++◌, ◌∷◌, [], OnOk};

use std::alloc::AllocError;

/// Adds an item at the end, with no call where the list has capacity for it.
#[inline]
pub fn add<T: Drop>(list: &mut Vec<T>, item: T) -> Result<(), AllocError>
    ensures { OnOk result (list.new.items ≡ list.old.items ++ item ∷ []) }
{
    if list.len() < list.capacity() {
        list.push_reserved(item);
    } else {
        list.push(item)?;
    }
    Ok(())
}
