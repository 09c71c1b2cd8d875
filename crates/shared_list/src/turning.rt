//! Transposes of matrices that are held row by row.

ghost use Rattle.std.specs.Prelude.{◌≡◌, ◌<◌, ◌^◌, ◌*◌, ◌+◌, ◌/◌, ◌%◌, length, map, get_or, set, IfOk, OnOk, OnErr};
ghost use Rattle.std.specs.List.{range_with_len};
ghost use Rattle.shared_list.specs.Turned.{turned};

use crate::items::{Items, item_or};
use std::alloc::{AllocError, Global};

/// n rows of m items, as m rows of n.
pub fn turned_items<T: Copy>(
    alloc: Global,
    n: usize,
    m: usize,
    nothing: T,
    items: &[T],
) -> Result<Vec<T>, AllocError>
    requires n { n < 2 ^ 32 }
    requires m { m < 2 ^ 32 }
    ensures { IfOk result (λ found. found.items ≡ turned nothing n m items.now) }
{
    let mut found = Vec::new(alloc);
    'each: for j in 0..m {
        add_column(&mut found, n, m, nothing, items, j)?;
    }
    Ok(found)
}

/// Column j of n rows of m, after the columns before it.
fn add_column<T: Copy>(
    found: &mut Vec<T>,
    n: usize,
    m: usize,
    nothing: T,
    items: &[T],
    j: usize,
) -> Result<(), AllocError>
    requires n { n < 2 ^ 32 }
    requires m { m < 2 ^ 32 }
    requires j { j < 2 ^ 32 }
    requires so_far { found.old.items ≡ map (λ k. get_or items.now (k % n * m + k / n) nothing)
        (range_with_len 0 (j * n)) }
    ensures { OnOk result (found.new.items ≡ map (λ k. get_or items.now (k % n * m + k / n) nothing)
        (range_with_len 0 ((j + 1) * n))) }
{
    'each: for i in 0..n {
        found.push(item_or(items, i * m + j, nothing))?;
    }
    Ok(())
}

/// Where the item at a place of the transpose of so many rows stands before the turn.
pub fn place_before(length: usize, rows: usize, columns: usize, place: usize) -> usize
    requires whole { length ≡ rows * columns }
    requires inside { place < length }
    ensures { result ≡ place % rows * columns + place / rows }
{
    place % rows * columns + place / rows
}

/// The item at a place of the transpose of so many rows, or `nothing` past its end.
#[tactic(auto, using(crate::proofs::api::Transposes::of_reads))]
pub fn turned_item_or<T: Copy>(
    items: &Items<T>,
    rows: usize,
    columns: usize,
    within: T,
    place: usize,
    nothing: T,
) -> T
    requires { length items.now ≡ rows * columns }
    ensures { result ≡ get_or (turned within rows columns items.now) place nothing }
{
    let length = items.len();
    if place < length {
        items.item_or(place_before(length, rows, columns, place), within)
    } else {
        nothing
    }
}

/// Sets an item of the transpose of so many rows, where there is one at this place.
#[tactic(auto, using(crate::proofs::api::Transposes::of_sets))]
pub fn set_turned<T: Copy>(
    alloc: Global,
    items: &mut Items<T>,
    rows: usize,
    columns: usize,
    place: usize,
    item: T,
) -> Result<(), AllocError>
    requires { length items.old ≡ rows * columns }
    ensures set { (nothing : T) → OnOk result (turned nothing rows columns items.new
        ≡ set (turned nothing rows columns items.old) place item) }
    ensures refused { OnErr result (items.new ≡ items.old) }
    ensures whole { length items.new ≡ rows * columns }
{
    let length = items.len();
    if place >= length {
        return Ok(());
    }
    items.set(alloc, place_before(length, rows, columns, place), item)?;
    Ok(())
}
