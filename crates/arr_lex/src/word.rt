//! Words: reserved ones, and names.

ghost use Rattle.std.specs.Prelude.{◌≡◌};
ghost use Rattle.arr_lex.specs.Lexing.{word_of as word};

use crate::token::Symbol;

/// The reserved word that a text is, or a name.
pub fn word_of(text: &[u8]) -> Symbol
    ensures { result ≡ word text.now }
{
    if text == b"input".as_slice() {
        return Symbol::Input;
    }
    if text == b"let".as_slice() {
        return Symbol::Let;
    }
    if text == b"for".as_slice() {
        return Symbol::For;
    }
    if text == b"in".as_slice() {
        return Symbol::In;
    }
    if text == b"output".as_slice() {
        return Symbol::Output;
    }
    if text == b"scale".as_slice() {
        return Symbol::Scale;
    }
    if text == b"sum".as_slice() {
        return Symbol::Sum;
    }
    if text == b"dot".as_slice() {
        return Symbol::Dot;
    }
    if text == b"matmul".as_slice() {
        return Symbol::MatMul;
    }
    if text == b"transpose".as_slice() {
        return Symbol::Transpose;
    }
    if text == b"def".as_slice() {
        return Symbol::Def;
    }
    Symbol::Name
}
