//! Changes of items of a list, by their places.

ghost use Rattle.std.specs.Prelude.{◌≡◌, ◌≢◌, ℕ, Some, IfOk};
ghost use Rattle.shared_list.specs.Changes.{change_at};

use std::alloc::{AllocError, Global};
use std::rc::Rc;

/// No change, or that of one item, with further changes on two sides: the digits of a place that is
/// written in binary, the lowest first, say on which side its change stands at each step. Lists
/// that differ in a few items share all other changes.
#[derive(Drop)]
pub enum Changes<T> {
    Unchanged,
    Changed {
        place: usize,
        item: T,
        even: Rc<Changes<T>>,
        odd: Rc<Changes<T>>,
    },
}

/// The item that a place is changed to, where `way` has the digits of the place that are left.
pub fn change<T: Copy>(changes: &Changes<T>, place: usize, way: usize) -> Option<T>
    ensures { result ≡ change_at changes.now place way }
{
    match changes {
        Changes::Unchanged => None,
        Changes::Changed {
            place: here,
            item,
            even,
            odd,
        } => {
            if place == *here {
                Some(*item)
            } else if way % 2 == 0 {
                change(even, place, way / 2)
            } else {
                change(odd, place, way / 2)
            }
        }
    }
}

/// The changes with one more, which share all others with those that were there.
pub fn with_change<T: Copy>(
    alloc: Global,
    changes: &Rc<Changes<T>>,
    place: usize,
    way: usize,
    item: T,
) -> Result<Rc<Changes<T>>, AllocError>
    ensures here { IfOk result (λ found. change_at found.value place way ≡ Some item) }
    ensures others { IfOk result (λ found. (other digits : ℕ) → other ≢ place →
        change_at found.value other digits ≡ change_at changes.now.value other digits) }
{
    match &**changes {
        Changes::Unchanged => {
            let even = changes.clone()?;
            let odd = changes.clone()?;
            Ok(Rc::new(
                alloc,
                Changes::Changed {
                    place,
                    item,
                    even,
                    odd,
                },
            )?)
        }
        Changes::Changed {
            place: here,
            item: old,
            even,
            odd,
        } => {
            if place == *here {
                let even = even.clone()?;
                let odd = odd.clone()?;
                Ok(Rc::new(
                    alloc,
                    Changes::Changed {
                        place,
                        item,
                        even,
                        odd,
                    },
                )?)
            } else if way % 2 == 0 {
                let even = with_change(alloc, even, place, way / 2, item)?;
                let odd = odd.clone()?;
                Ok(Rc::new(
                    alloc,
                    Changes::Changed {
                        place: *here,
                        item: *old,
                        even,
                        odd,
                    },
                )?)
            } else {
                let even = even.clone()?;
                let odd = with_change(alloc, odd, place, way / 2, item)?;
                Ok(Rc::new(
                    alloc,
                    Changes::Changed {
                        place: *here,
                        item: *old,
                        even,
                        odd,
                    },
                )?)
            }
        }
    }
}
