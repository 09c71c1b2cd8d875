//! What holds of script text by its definitions alone.

ghost use Rattle.std.specs.Prelude.{◌≡◌, List, [], ◌++◌, ℕ, Err};
ghost use Rattle.text_parts.specs.Places.{IsPlace};
ghost use Rattle.case_text.specs.declared.case.refusal.BadCase.{BadCase};
ghost use Rattle.script_text.specs.declared.script.ScriptJob.{ScriptJob};
ghost use Rattle.script_text.specs.declared.script.MarkedJob.{MarkedJob};
ghost use Rattle.script_text.specs.Scripts.{SpellsHistoryScript, SpellsScript, history_script_reading, script_reading};

/// Bytes spell at most one script.
pub fn one_script()
    ensures { (bytes : List ℕ) (js ks : List ScriptJob) → SpellsScript bytes js
        → SpellsScript bytes ks → js ≡ ks }
{}

/// A refusal of a script is at the end of the longest prefix of the bytes with which some script begins.
pub fn script_refusal_place()
    ensures { (bytes : List ℕ) (bad : BadCase) → script_reading bytes ≡ Err bad
        → IsPlace (λ jobs text. SpellsScript text jobs) bytes bad.at }
{}

/// No text of a script begins another.
pub fn no_script_begins_another()
    ensures { (text more : List ℕ) (js ks : List ScriptJob) → SpellsScript text js
        → SpellsScript (text ++ more) ks → more ≡ [] }
{}

/// Bytes spell at most one script whose jobs may be withdrawn.
pub fn one_history_script()
    ensures { (bytes : List ℕ) (js ks : List MarkedJob) → SpellsHistoryScript bytes js
        → SpellsHistoryScript bytes ks → js ≡ ks }
{}

/// A refusal of such a script is at the end of the longest prefix of the bytes with which some such script begins.
pub fn history_script_refusal_place()
    ensures { (bytes : List ℕ) (bad : BadCase) → history_script_reading bytes ≡ Err bad
        → IsPlace (λ jobs text. SpellsHistoryScript text jobs) bytes bad.at }
{}

/// No text of such a script begins another.
pub fn no_history_script_begins_another()
    ensures { (text more : List ℕ) (js ks : List MarkedJob) → SpellsHistoryScript text js
        → SpellsHistoryScript (text ++ more) ks → more ≡ [] }
{}
