//! Outputs, put at the places of their pieces.

ghost use Rattle.std.specs.Prelude.{◌≡◌, ℕ, ◌<◌, map, length, replicate, None, Some, slice_index_or, vec_len, IfOk};
ghost use Rattle.std.specs.List.{range_with_len, All};
ghost use Rattle.std.specs.List.Sorted.{IsPermutation};
ghost use Rattle.phase_run.specs.Work.{AllPlaced};

use crate::work::PieceWork;
use std::alloc::{AllocError, Global};

/// n places with nothing in them.
fn vacant<X: Drop>(alloc: Global, n: u32) -> Result<Vec<Option<X>>, AllocError>
    ensures { IfOk result (λ v. (v.items ≡ replicate n None) × (vec_len v ≡ n)) }
{
    let mut slots = Vec::new(alloc);
    for _ in 0..n {
        slots.push(None)?;
    }
    Ok(slots)
}

/// Puts each output at the place of its piece.
fn filled<W: PieceWork>(
    work: &W,
    mut slots: Vec<Option<W::Out>>,
    mut results: Vec<(u32, W::Out)>,
) -> Vec<Option<W::Out>>
where
    W::Out: Drop,
    requires vacant { slots.items ≡ replicate (vec_len slots) None }
    requires places { All (λ p. p.0 < vec_len slots) results.items }
    requires outputs { All (λ p. p.1 ≡ W.out_of work.now p.0) results.items }
    ensures { AllPlaced (W.out_of work.now) (map (λ p. p.0) results.items) result.items
        × (vec_len result ≡ vec_len slots) }
{
    let _ = work;
    while let Some((k, out)) = results.pop() {
        slots[k as usize] = Some(out);
    }
    slots
}

/// The outputs, out of their places.
fn gathered<W: PieceWork>(
    alloc: Global,
    work: &W,
    mut slots: Vec<Option<W::Out>>,
) -> Result<Vec<W::Out>, AllocError>
where
    W::Out: Drop,
    requires { (j : ℕ) → j < length slots.items
        → slice_index_or slots.items j None ≡ Some (W.out_of work.now j) }
    ensures { IfOk result (λ v. v.items ≡ map (W.out_of work.now)
        (range_with_len 0 (vec_len slots))) }
{
    let _ = work;
    let mut all = Vec::new(alloc);
    for i in 0..slots.len() {
        let Some(x) = slots[i].take() else {
            unreachable!()
        };
        all.push(x)?;
    }
    Ok(all)
}

/// The outputs of the pieces 0 to n - 1 in order, from results in any order.
pub(crate) fn placed<W: PieceWork>(
    alloc: Global,
    n: u32,
    work: &W,
    results: Vec<(u32, W::Out)>,
) -> Result<Vec<W::Out>, AllocError>
where
    W::Out: Drop,
    requires pieces { IsPermutation (range_with_len 0 n) (map (λ p. p.0) results.items) }
    requires outputs { All (λ p. p.1 ≡ W.out_of work.now p.0) results.items }
    ensures { IfOk result (λ v. v.items ≡ map (W.out_of work.now) (range_with_len 0 n)) }
{
    let slots = vacant(alloc, n)?;
    let slots = filled(work, slots, results);
    gathered(alloc, work, slots)
}
