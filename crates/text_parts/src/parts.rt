//! The parts of a text, each from the beginning of the bytes.

ghost use Rattle.std.specs.Prelude.{◌≡◌, ◌<◌, ◌≤◌, ◌^◌, Ok};
ghost use Rattle.text_parts.specs.Parts.{word_at, decimal_at, digits_at, counted_bytes_at, at_end, Gives};

use crate::due::DueKind;
use crate::rule::Rule;
use crate::stop::{ReadError, stop_at};

/// Takes a fixed word, and answers what follows it. It stops at the first byte that is another than the word's, which is
/// of this kind, or at the end.
#[tactic(auto, using(crate::proofs::Words::word_ends), unfolding(crate::specs::Parts::word_at))]
pub fn word<'a>(kind: DueKind, word: &[u8], bytes: &'a [u8]) -> Result<&'a [u8], ReadError>
    ensures { Gives (λ rest. (tt, rest.now)) result (word_at kind word.now bytes.now) }
{
    let mut rest = bytes;
    for expected in word {
        match rest {
            [] => return Err(stop_at(rest, DueKind::End)),
            [byte, tail @ ..] => {
                if byte != expected {
                    return Err(stop_at(rest, kind));
                }
                rest = tail;
            }
        }
    }
    Ok(rest)
}

/// Takes a decimal without a leading zero, and the byte after it, by a rule; answers the number and what follows. It stops
/// at the first byte that isn't due, or at the end.
#[tactic(auto, unfolding(crate::specs::Parts::decimal_at))]
pub fn decimal(rule: Rule, bytes: &[u8]) -> Result<(u32, &[u8]), ReadError>
    requires { rule.limit ≤ 2 ^ 31 }
    ensures { Gives (λ x. (x.0, x.1.now)) result (decimal_at rule bytes.now) }
{
    match bytes {
        [] => Err(stop_at(bytes, DueKind::End)),
        [byte, rest @ ..] => {
            if !byte.is_ascii_digit() {
                return Err(stop_at(bytes, DueKind::Number));
            }
            let number = u32::from(*byte - b'0');
            if number >= rule.limit {
                return Err(stop_at(bytes, rule.over));
            }
            if number == 0 {
                return zero(rule, rest);
            }
            digits(rule, number, rest)
        }
    }
}

/// Takes the byte after a 0.
#[tactic(auto, unfolding(crate::specs::Parts::digits_at))]
fn zero(rule: Rule, bytes: &[u8]) -> Result<(u32, &[u8]), ReadError>
    ensures { Gives (λ x. (x.0, x.1.now)) result (digits_at rule 0 bytes.now) }
{
    match bytes {
        [] => Err(stop_at(bytes, DueKind::End)),
        [byte, rest @ ..] => {
            if *byte != rule.after_zero {
                return Err(stop_at(bytes, DueKind::Number));
            }
            Ok((0, rest))
        }
    }
}

/// Takes the digits that follow those of a number that isn't 0, and the byte after them.
#[tactic(auto, unfolding(crate::specs::Parts::digits_at))]
fn digits(rule: Rule, first: u32, bytes: &[u8]) -> Result<(u32, &[u8]), ReadError>
    requires limit { rule.limit ≤ 2 ^ 31 }
    requires some { 0 < first }
    requires first { first < rule.limit }
    ensures { Gives (λ x. (x.0, x.1.now)) result (digits_at rule first bytes.now) }
{
    let mut number = first;
    let mut rest = bytes;
    while let [byte, tail @ ..] = rest {
        if *byte == rule.after_other {
            return Ok((number, tail));
        }
        if !byte.is_ascii_digit() {
            return Err(stop_at(rest, DueKind::Number));
        }
        let next = 10 * u64::from(number) + u64::from(*byte - b'0');
        if next >= u64::from(rule.limit) {
            return Err(stop_at(rest, rule.over));
        }
        number = next as u32;
        rest = tail;
    }
    Err(stop_at(rest, DueKind::End))
}

/// Takes this many bytes of any value. It stops at the end, where there are fewer.
#[tactic(auto, unfolding(crate::specs::Parts::counted_bytes_at))]
pub fn counted_bytes(count: u32, bytes: &[u8]) -> Result<(&[u8], &[u8]), ReadError>
    ensures { Gives (λ x. (x.0.now, x.1.now)) result (counted_bytes_at count bytes.now) }
{
    let count = count as usize;
    if bytes.len() < count {
        return Err(stop_at(&[], DueKind::End));
    }
    Ok(bytes.split_at(count))
}

/// Takes the end of a text: nothing is left. It stops at the first byte that is.
pub fn end(rest: &[u8]) -> Result<(), ReadError>
    ensures { Gives (λ u. u) result (at_end (Ok (tt, rest.now))) }
{
    if !rest.is_empty() {
        return Err(stop_at(rest, DueKind::Rest));
    }
    Ok(())
}
