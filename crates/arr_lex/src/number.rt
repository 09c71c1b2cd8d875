//! The rule for numbers.

ghost use Rattle.std.specs.Prelude.{◌≡◌, ◌≤◌, ◌-◌, ◌+◌, ◌<◌, ◌^◌, true, length, All, Some, None, if◌then◌else◌};
ghost use Rattle.arr_lex.specs.Agrees.{Agrees};
ghost use Rattle.arr_lex.specs.Byte.{is_digit};
ghost use Rattle.arr_lex.specs.Lexing.{number_of as number, number_taken as taken_of, may_follow as follows, next_value as value_behind};

use crate::refused::LexRefused;
use crate::token::Symbol;

const MAX_NUMBER: u64 = 2_147_483_646;

/// The number of a first digit and those after it.
#[tactic(auto, using(crate::proofs::Later::of_numbers))]
pub fn number_taken(at: usize, first: u8, digits: &[u8]) -> Result<(Symbol, usize), LexRefused>
    requires fits { at + length digits.now < 2 ^ 63 }
    requires first { is_digit first ≡ true }
    requires digits { All (λ digit. is_digit digit ≡ true) digits.now }
    ensures { Agrees (λ found. found) result (taken_of at first digits.now) }
{
    let mut value = u32::from(first - b'0');
    'each: for (place, digit) in digits.iter().enumerate() {
        match following(value, *digit) {
            Some(next) => value = next,
            None => return Err(LexRefused::Lex { at: at + place + 1 }),
        }
    }
    Ok((Symbol::Number(value), digits.len() + 1))
}

/// The number with one digit more, where it may follow.
fn following(value: u32, digit: u8) -> Option<u32>
    requires { is_digit digit ≡ true }
    ensures { result ≡ (if follows value digit then Some (value_behind value digit) else None) }
{
    let next = 10 * u64::from(value) + u64::from(digit - b'0');
    if value > 0 && next <= MAX_NUMBER {
        Some(next as u32)
    } else {
        None
    }
}
