//! What holds of every interleaving of claims. Each function does nothing: its contract is a law that is proved.

ghost use Rattle.std.specs.Prelude.{◌≡◌, ℕ, ◌<◌, List, length, map, Some};
ghost use Rattle.std.specs.List.{range_with_len};
ghost use Rattle.std.specs.List.Sorted.{IsPermutation};
ghost use Rattle.chunk_board.specs.ClaimMachine.{ClaimStep, Phase, start, IsRun, IsRule, AreResults, AllStopped, AllWorked, pieces_of, outputs_of, result_at, sum_with};
ghost use Rattle.chunk_board.specs.PartHands.{Homes, IsPartBoard, IsHomeOrHeld};
ghost use Rattle.chunk_board.specs.declared.part_rule.PartHand.{PartHand};

/// Every list of steps keeps the rule: what is drawn are the numbers below `next` and n, each once; the shares add to
/// the total; where a worker has stopped, all is drawn. Each result is the output of a piece that was drawn, once.
pub fn every_run_keeps_the_rule<X>()
    ensures rule { (n shares : ℕ) (out : ℕ → X) (ss : List ClaimStep) (p : Phase X)
        → IsRun n out ss (start shares) p → IsRule n shares p.next p.workers }
    ensures results { (n shares : ℕ) (out : ℕ → X) (ss : List ClaimStep) (p : Phase X)
        → IsRun n out ss (start shares) p → AreResults out p.workers p.results }
{}

/// Whatever the order of claims, where each worker has stopped and each drawn piece was worked, the results have each piece
/// from 0 to n - 1 once, and placed by number they are the outputs in order.
pub fn each_piece_once<X>()
    ensures pieces { (n shares : ℕ) (out : ℕ → X) (ss : List ClaimStep) (p : Phase X) → 0 < shares
        → IsRun n out ss (start shares) p → AllStopped p → AllWorked p →
        IsPermutation (range_with_len 0 n) (pieces_of p.results) }
    ensures placed { (n shares : ℕ) (out : ℕ → X) (ss : List ClaimStep) (p : Phase X) → 0 < shares
        → IsRun n out ss (start shares) p → AllStopped p → AllWorked p →
        map (λ k. result_at k p.results) (range_with_len 0 n) ≡ map
        (λ k. Some (out k)) (range_with_len 0 n) }
{}

/// The results then add up, in their order of arrival, to the sum of the outputs in order, under any sum that is
/// commutative and associative, as a field's is.
pub fn one_sum<A>()
    ensures { (n shares : ℕ) (out : ℕ → A) (add : A → A → A) (zero : A)
        → ((x y : A) → add x y ≡ add y x) → ((x y z : A) → add (add x y) z ≡ add x (add y z)) →
        (ss : List ClaimStep) (p : Phase A) → 0 < shares → IsRun n out ss (start shares) p
        → AllStopped p → AllWorked p →
        sum_with add zero (outputs_of p.results) ≡ sum_with add zero
        (map out (range_with_len 0 n)) }
{}

/// At each moment of a board of parts, each part lies in its slot and no claimer holds it, or its slot is out and one claimer
/// holds it.
pub fn each_part_home_or_held<T>()
    ensures { (parts : List T) (shares next back : ℕ) (homes : Homes T) (hands : List (PartHand T))
        → IsPartBoard parts shares next back homes hands → (k : ℕ) → k < length parts
        → IsHomeOrHeld k homes hands }
{}
