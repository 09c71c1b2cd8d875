//! Laws of counted lists. Each function does nothing: its contract is a law that is proved.

ghost use Rattle.std.specs.Prelude.{◌↔◌, ℕ, ◌≤◌, List, length};
ghost use Rattle.std.specs.List.{range_with_len};
ghost use Rattle.std.specs.List.Sorted.{IsPermutation};
ghost use Rattle.tallies.specs.Tallies.{times, once_below, HasEachOnce};

/// A list has each number below n once, and no other, exactly where it is 0 to n - 1 in some order.
pub fn each_once_is_permutation()
    ensures { (n : ℕ) (xs : List ℕ) → HasEachOnce n xs ↔ IsPermutation (range_with_len 0 n) xs }
{}

/// A list of numbers below n with none of them twice has n numbers at most.
#[tactic(auto, using(crate::proofs::api::Once::few))]
pub fn no_longer_than_its_range()
    ensures { (n : ℕ) (xs : List ℕ) → ((x : ℕ) → times x xs ≤ once_below x n) → length xs ≤ n }
{}
