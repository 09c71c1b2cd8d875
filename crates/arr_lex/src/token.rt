//! Tokens: what they are, and where they are in the text.

/// What a token is.
#[derive(Clone, Copy, PartialEq, Eq, Debug)]
pub enum Symbol {
    Input,
    Let,
    For,
    In,
    Output,
    Scale,
    Sum,
    Dot,
    MatMul,
    Transpose,
    Def,
    Plus,
    Minus,
    Star,
    Equals,
    Semicolon,
    Comma,
    OpenRound,
    CloseRound,
    OpenSquare,
    CloseSquare,
    OpenCurly,
    CloseCurly,
    Range,
    Number(u32),
    Name,
}

/// A token, from its first byte up to the byte past its end.
#[derive(Clone, Copy, PartialEq, Eq, Debug)]
pub struct Token {
    pub symbol: Symbol,
    pub start: usize,
    pub end: usize,
}
