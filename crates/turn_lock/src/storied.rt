//! A state with a history.

ghost use Rattle.std.specs.Prelude.{◌≡◌, ℕ, List, [], ◌∷◌, ◌++◌, length};
ghost use Rattle.tallies.specs.Tallies.{Apart};
ghost use Rattle.turn_lock.specs.Lists.{unite};

/// A state whose history is a list of entries, of which a turn owns places.
///
/// `owns history mine` is a fact that the user picks, on the places `mine` of the history. It holds of no places; of
/// two lists that are apart it holds together; and an entry added under it for one list keeps it for every list that
/// is apart from that one.
pub trait Storied<E> {
    ghost history: { Self → List E };

    // A number that no turn changes.
    ghost fixed: { Self → ℕ };

    ghost owns: { List E → List ℕ → Type 0 };

    ghost owns_none: { (h : List E) → owns h [] };

    ghost owns_both: { (h : List E) (a b : List ℕ) → owns h a → owns h b → Apart a b
        → owns h (unite a b) };

    ghost owns_others: { (h : List E) (e : E) (mine other : List ℕ)
        → owns (h ++ e ∷ []) (mine ++ length h ∷ []) → owns h other
        → Apart (mine ++ length h ∷ []) other → owns (h ++ e ∷ []) other };
}
