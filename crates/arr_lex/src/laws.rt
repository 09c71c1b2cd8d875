//! Laws of the definition of tokens, each a function that does nothing and ensures the law.

ghost use Rattle.std.specs.Prelude.{◌≡◌, ℕ, ◌+◌, true, List, ◌∷◌, ◌++◌, length, Ok};
ghost use Rattle.arr_lex.specs.Byte.{is_blank};
ghost use Rattle.arr_lex.specs.declared.token.Token.{Token};
ghost use Rattle.arr_lex.specs.Lexing.{tokens_from, with_prefix};
ghost use Rattle.arr_lex.specs.Moved.{moved};
ghost use Rattle.arr_lex.specs.Spans.{AreSpans};

/// A text has the same tokens wherever it begins, but for their places.
pub fn same_anywhere()
    ensures { (distance : ℕ) (text : List ℕ)
        → tokens_from distance 0 text ≡ moved distance (tokens_from 0 0 text) }
{}

/// White space between tokens only moves what comes after it: the tokens before it stay, and those after it are those of
/// the rest alone, further on. So however much of it is there, and of which bytes, symbols and their order stay.
pub fn white_space_moves()
    ensures { (front : List ℕ) (blank : ℕ) (back : List ℕ) (tokens : List Token)
        → is_blank blank ≡ true → tokens_from 0 0 front ≡ Ok tokens →
        tokens_from 0 0 (front ++ blank ∷ back) ≡ with_prefix tokens
        (moved (length front + 1) (tokens_from 0 0 back)) }
{}

/// The tokens of a text are spans of it in order: each is the longest token that the bytes from its start begin with, and
/// between them, before the first and after the last is nothing but blanks.
pub fn spans()
    ensures { (text : List ℕ) (tokens : List Token) → tokens_from 0 0 text ≡ Ok tokens
        → AreSpans 0 text tokens }
{}
