//! The classes of bytes.

ghost use Rattle.std.specs.Prelude.{◌≡◌};
ghost use Rattle.arr_lex.specs.Byte.{is_blank as blank, is_digit as digit, is_letter as letter, is_name_byte as name_byte, sign_of as sign};

use crate::token::Symbol;

pub fn is_blank(byte: u8) -> bool
    ensures { result ≡ blank byte }
{
    byte == b' ' || byte == b'\t' || byte == b'\r' || byte == b'\n'
}

pub fn is_digit(byte: u8) -> bool
    ensures { result ≡ digit byte }
{
    byte >= b'0' && byte <= b'9'
}

pub fn is_letter(byte: u8) -> bool
    ensures { result ≡ letter byte }
{
    (byte >= b'a' && byte <= b'z') || (byte >= b'A' && byte <= b'Z') || byte == b'_'
}

pub fn is_name_byte(byte: u8) -> bool
    ensures { result ≡ name_byte byte }
{
    is_letter(byte) || is_digit(byte)
}

/// The sign of one byte.
pub fn sign_of(byte: u8) -> Option<Symbol>
    ensures { result ≡ sign byte }
{
    match byte {
        b'+' => Some(Symbol::Plus),
        b'-' => Some(Symbol::Minus),
        b'*' => Some(Symbol::Star),
        b'=' => Some(Symbol::Equals),
        b';' => Some(Symbol::Semicolon),
        b',' => Some(Symbol::Comma),
        b'(' => Some(Symbol::OpenRound),
        b')' => Some(Symbol::CloseRound),
        b'[' => Some(Symbol::OpenSquare),
        b']' => Some(Symbol::CloseSquare),
        b'{' => Some(Symbol::OpenCurly),
        b'}' => Some(Symbol::CloseCurly),
        _ => None,
    }
}
