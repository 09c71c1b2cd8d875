//! What holds of notes by the laws of their parts.

ghost use Rattle.std.specs.Prelude.{◌≡◌, List, [], ◌++◌, ℕ};
ghost use Rattle.part_tests.specs.Notes.{SpellsNote};

/// Bytes spell at most one note.
pub fn one_note()
    ensures { (bytes : List ℕ) (m n : ℕ) → SpellsNote bytes m → SpellsNote bytes n → m ≡ n }
{}

/// No note begins another.
pub fn no_note_begins_another()
    ensures { (text more : List ℕ) (m n : ℕ) → SpellsNote text m → SpellsNote (text ++ more) n
        → more ≡ [] }
{}
