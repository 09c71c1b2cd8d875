//! What holds of case text by its definitions alone.

ghost use Rattle.std.specs.Prelude.{◌≡◌, ◌↔◌, List, [], ◌++◌, ℕ, Ok, Err};
ghost use Rattle.case_text.specs.declared.case.form.Form.{Form};
ghost use Rattle.case_text.specs.Content.{Content};
ghost use Rattle.case_text.specs.Spelling.{Spells};
ghost use Rattle.case_text.specs.Reading.{reading};
ghost use Rattle.text_parts.specs.Places.{IsPlace};
ghost use Rattle.case_text.specs.declared.case.refusal.BadCase.{BadCase};

/// Bytes spell at most one case.
pub fn one_case()
    ensures { (form : Form) (bytes : List ℕ) (c d : Content) → Spells form bytes c
        → Spells form bytes d → c ≡ d }
{}

/// A case is read from exactly the bytes that spell it.
pub fn read_exactly()
    ensures { (form : Form) (bytes : List ℕ) (c : Content) → (reading form bytes ≡ Ok c)
        ↔ Spells form bytes c }
{}

/// A refusal is at the end of the longest prefix of the bytes with which some text begins.
pub fn refusal_place()
    ensures { (form : Form) (bytes : List ℕ) (bad : BadCase) → reading form bytes ≡ Err bad
        → IsPlace (λ c text. Spells form text c) bytes bad.at }
{}

/// No text of a case begins another of its form.
pub fn no_case_begins_another()
    ensures { (form : Form) (text more : List ℕ) (c d : Content) → Spells form text c
        → Spells form (text ++ more) d → more ≡ [] }
{}
