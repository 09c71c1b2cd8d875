//! Texts with their tokens.

use arr_lex::{Symbol, Token, tokens};

fn token(symbol: Symbol, start: usize, end: usize) -> Token {
    Token { symbol, start, end }
}

#[test]
fn finds_the_longest_tokens(rt: HostRuntime) {
    let output = [
        token(Symbol::Output, 0, 6),
        token(Symbol::Number(7), 7, 8),
        token(Symbol::Semicolon, 8, 9),
    ];
    let range = [
        token(Symbol::Number(0), 0, 1),
        token(Symbol::Range, 1, 3),
        token(Symbol::Number(12), 3, 5),
        token(Symbol::Name, 5, 6),
    ];
    let words = [
        token(Symbol::Name, 0, 6),
        token(Symbol::Number(2147483646), 9, 19),
    ];
    for (text, want) in [
        (b"output 7;".as_slice(), output.as_slice()),
        (b"0..12a".as_slice(), range.as_slice()),
        (b"inputs\t\r\n2147483646".as_slice(), words.as_slice()),
        (b" ".as_slice(), [].as_slice()),
    ] {
        assert!(rt; text.len() <= 65536);
        match tokens(rt.alloc(), text) {
            Ok(found) => assert_eq!(rt; found.as_slice(), want),
            Err(refused) => assert!(rt; false, "{refused}"),
        }
    }
}
