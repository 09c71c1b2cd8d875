//! What holds of session text by its definitions alone.

ghost use Rattle.std.specs.Prelude.{◌≡◌, List, [], ◌++◌, ℕ, Err};
ghost use Rattle.text_parts.specs.Places.{IsPlace};
ghost use Rattle.case_text.specs.declared.case.refusal.BadCase.{BadCase};
ghost use Rattle.session_text.specs.Sessions.{SessionContent, SpellsSession, session_reading};

/// Bytes spell at most one session.
pub fn one_session()
    ensures { (bytes : List ℕ) (s t : SessionContent) → SpellsSession bytes s
        → SpellsSession bytes t → s ≡ t }
{}

/// A refusal of a session is at the end of the longest prefix of the bytes with which some session begins.
pub fn session_refusal_place()
    ensures { (bytes : List ℕ) (bad : BadCase) → session_reading bytes ≡ Err bad
        → IsPlace (λ session text. SpellsSession text session) bytes bad.at }
{}

/// No text of a session begins another.
pub fn no_session_begins_another()
    ensures { (text more : List ℕ) (s t : SessionContent) → SpellsSession text s
        → SpellsSession (text ++ more) t → more ≡ [] }
{}
