//! Tokens, from the left.

ghost use Rattle.std.specs.Prelude.{◌≡◌, ◌≤◌, ◌<◌, ◌^◌, ◌+◌, true, ◌∷◌, suc, length, All, IfOk, Ok};
ghost use Rattle.std.specs.List.{take_while};
ghost use Rattle.arr_lex.specs.Agrees.{Agrees};
ghost use Rattle.arr_lex.specs.Byte.{is_digit as digit, is_name_byte as name_byte};
ghost use Rattle.arr_lex.specs.Lexing.{taken as taken_of, sign_taken as taken_of_sign, tokens_from};

use crate::byte::{is_blank, is_digit, is_letter, is_name_byte, sign_of};
use crate::number::number_taken;
use crate::refused::LexRefused;
use crate::token::{Symbol, Token};
use crate::word::word_of;
use std::alloc::Global;

/// The tokens of a text, or `Lex` at the first byte that is none's. `Memory` comes only where no memory is found.
#[tactic(auto, using(crate::proofs::Passed::of_tokens))]
pub fn tokens(alloc: Global, text: &[u8]) -> Result<Vec<Token>, LexRefused>
    requires { length text.now ≤ 65536 }
    ensures { Agrees (λ found. found.items) result (tokens_from 0 0 text.now) }
{
    let mut tokens = Vec::new(alloc);
    let mut at = 0usize;
    let mut rest = text;
    'each: while let Some((first, behind)) = rest.split_first() {
        if is_blank(*first) {
            at += 1;
            rest = behind;
        } else {
            let (symbol, count) = taken(at, rest)?;
            tokens.push(Token {
                symbol,
                start: at,
                end: at + count,
            })?;
            at += count;
            rest = rest.split_at(count).1;
        }
    }
    Ok(tokens)
}

/// The symbol of the longest token that a text begins with, and how many bytes it takes.
fn taken(at: usize, text: &[u8]) -> Result<(Symbol, usize), LexRefused>
    requires { at + length text.now < 2 ^ 63 }
    ensures taken { Agrees (λ found. found) result (taken_of at text.now) }
    ensures some { IfOk result (λ found. 0 < found.1) }
    ensures within { IfOk result (λ found. found.1 ≤ length text.now) }
{
    let Some((first, rest)) = text.split_first() else {
        return Err(LexRefused::Lex { at });
    };
    if is_letter(*first) {
        let word = name_run(text);
        Ok((word_of(word), word.len()))
    } else if is_digit(*first) {
        number_taken(at, *first, digit_run(rest))
    } else {
        sign_taken(at, *first, rest)
    }
}

/// A sign, of one byte or two.
fn sign_taken(at: usize, first: u8, rest: &[u8]) -> Result<(Symbol, usize), LexRefused>
    ensures taken { Agrees (λ found. found) result (taken_of_sign at first rest.now) }
    ensures some { IfOk result (λ found. 0 < found.1) }
    ensures within { IfOk result (λ found. found.1 ≤ suc (length rest.now)) }
{
    if let Some((next, _)) = rest.split_first() {
        if first == b'.' && *next == b'.' {
            return Ok((Symbol::Range, 2));
        }
    }
    match sign_of(first) {
        Some(sign) => Ok((sign, 1)),
        None => Err(LexRefused::Lex { at }),
    }
}

/// The digits that a text begins with.
#[tactic(auto, using(crate::proofs::Runs::of_runs))]
fn digit_run(text: &[u8]) -> &[u8]
    ensures run { result.now ≡ take_while digit text.now }
    ensures digits { All (λ byte. digit byte ≡ true) result.now }
{
    for (count, byte) in text.iter().enumerate() {
        if !is_digit(*byte) {
            return &text[..count];
        }
    }
    text
}

/// The letters and digits that a text begins with.
#[tactic(auto, using(crate::proofs::Runs::of_runs))]
fn name_run(text: &[u8]) -> &[u8]
    ensures { result.now ≡ take_while name_byte text.now }
{
    for (count, byte) in text.iter().enumerate() {
        if !is_name_byte(*byte) {
            return &text[..count];
        }
    }
    text
}
