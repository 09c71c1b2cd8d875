//! Operators on lists that others may hold too. A list that nobody else holds gives its buffer.

ghost use Rattle.std.specs.Prelude.{◌≡◌, map, IfOk};
ghost use Rattle.field_ext.specs.Field.{add_f, sub_f, mul_f, neg_f};
ghost use Rattle.arr_eval.specs.Numbers.{element_wise};

use crate::numbers::{differences, opposites, products, sums};
use field_ext::Fp;
use shared_list::SharedList;
use std::alloc::{AllocError, Global};

/// The sums of two lists, place by place.
pub fn added(
    alloc: Global,
    left: SharedList<Fp>,
    right: &SharedList<Fp>,
) -> Result<SharedList<Fp>, AllocError>
    ensures { IfOk result (λ items. items ≡ element_wise add_f left right.now) }
{
    match (left.only(), right.only()) {
        (Some(a), Some(b)) => Ok(SharedList::one(a + b)),
        _ => {
            let right = right.in_order(alloc)?;
            let left = left.into_vec(alloc)?;
            SharedList::new(alloc, sums(left, &right))
        }
    }
}

/// The differences of two lists, place by place.
pub fn subtracted(
    alloc: Global,
    left: SharedList<Fp>,
    right: &SharedList<Fp>,
) -> Result<SharedList<Fp>, AllocError>
    ensures { IfOk result (λ items. items ≡ element_wise sub_f left right.now) }
{
    match (left.only(), right.only()) {
        (Some(a), Some(b)) => Ok(SharedList::one(a - b)),
        _ => {
            let right = right.in_order(alloc)?;
            let left = left.into_vec(alloc)?;
            SharedList::new(alloc, differences(left, &right))
        }
    }
}

/// The products of two lists, place by place.
pub fn multiplied(
    alloc: Global,
    left: SharedList<Fp>,
    right: &SharedList<Fp>,
) -> Result<SharedList<Fp>, AllocError>
    ensures { IfOk result (λ items. items ≡ element_wise mul_f left right.now) }
{
    match (left.only(), right.only()) {
        (Some(a), Some(b)) => Ok(SharedList::one(a * b)),
        _ => {
            let right = right.in_order(alloc)?;
            let left = left.into_vec(alloc)?;
            SharedList::new(alloc, products(left, &right))
        }
    }
}

/// The negations of a list.
pub fn negated_list(alloc: Global, items: SharedList<Fp>) -> Result<SharedList<Fp>, AllocError>
    ensures { IfOk result (λ found. found ≡ map neg_f items) }
{
    match items.only() {
        Some(a) => Ok(SharedList::one(-a)),
        None => {
            let items = items.into_vec(alloc)?;
            SharedList::new(alloc, opposites(items))
        }
    }
}
