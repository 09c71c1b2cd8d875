//! The nodes of each level, by number.

ghost use Rattle.std.specs.Prelude.{◌≡◌, ℕ, ◌≤◌, ◌<◌, ◌+◌, ◌^◌, length, slice_index, IfOk};
ghost use Rattle.layer_compile.specs.Next.{AreChains};

use std::alloc::{AllocError, Global};

/// The first node of each level, and after each node the next one of its level: a number past the last where there is
/// none.
#[derive(Drop)]
pub struct Chains {
    pub first: Vec<u32>,
    pub next: Vec<u32>,
}

/// Links nodes with these levels.
pub fn linked(alloc: Global, levels: &[usize]) -> Result<Chains, AllocError>
    requires few { length levels.now < 2 ^ 32 }
    requires low { (k : ℕ) → k < length levels.now → slice_index levels.now k ≤ k }
    ensures linked { IfOk result (λ c. AreChains levels.now c.first.items c.next.items) }
    ensures firsts { IfOk result (λ c. length c.first.items ≡ length levels.now + 1) }
    ensures nexts { IfOk result (λ c. length c.next.items ≡ length levels.now) }
{
    let many = levels.len();
    let mut first = vec![in alloc; many as u32; many + 1]?;
    let mut next = vec![in alloc; many as u32; many]?;
    link(&mut first, &mut next, levels);
    Ok(Chains { first, next })
}

/// Puts each node before those of its level, from the last node.
fn link(first: &mut [u32], next: &mut [u32], levels: &[usize])
    requires few { length levels.now < 2 ^ 32 }
    requires low { (k : ℕ) → k < length levels.now → slice_index levels.now k ≤ k }
    requires capacity { length first.old ≡ length levels.now + 1 }
    requires places { length next.old ≡ length levels.now }
    requires none { (h : ℕ) → h ≤ length levels.now → slice_index first.old h ≡ length levels.now }
    ensures { AreChains levels.now first.new next.new }
{
    for k in (0..levels.len()).rev() {
        let level = levels[k];
        next[k] = first[level];
        first[level] = k as u32;
    }
}
