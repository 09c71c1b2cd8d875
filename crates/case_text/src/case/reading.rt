//! Reading the text of a case.

ghost use Rattle.std.specs.Prelude.{◌≡◌, ◌/◌, codes, IfOk, Ok, length, min};
ghost use Rattle.text_parts.specs.Bytes.{initial};
ghost use Rattle.text_parts.specs.Parts.{Gives, each_at};
ghost use Rattle.case_text.specs.Content.{Content};
ghost use Rattle.case_text.specs.Spelling.{Spells};
ghost use Rattle.case_text.specs.Due.{digits_stop, hex_byte_at, line_at};
ghost use Rattle.std.specs.Option.{option_map};
ghost use Rattle.case_text.specs.Reading.{language_at, outputs_at, proof_at, hex_stop, Answers, program_at, values_at, counted_at, case_at, case_in, reading};

use crate::case::Case;
use crate::case::form::Form;
use crate::case::refusal::{CaseRefused, refusal_of};
use crate::case::rules::{proof_length, text_length, value_count, value_rule};
use arr_ast::Lang;
use field_ext::Fp;
use hex::FromHexError;
use std::alloc::Global;
use text_parts::{DueKind, ReadError, counted_bytes, decimal, end, stop_at, word};

/// Takes the number of a language.
#[tactic(auto, unfolding(crate::specs::Reading::language_at, text_parts::specs::Parts::choice_at))]
fn language(bytes: &[u8]) -> Result<(Lang, &[u8]), ReadError>
    ensures { Gives (λ x. (x.0, x.1.now)) result (language_at bytes.now) }
{
    match bytes {
        [] => Err(stop_at(bytes, DueKind::End)),
        [b'1', ..] => {
            let rest = word(DueKind::Header, b"1", bytes)?;
            Ok((Lang::One, rest))
        }
        _ => {
            let rest = word(DueKind::Header, b"2", bytes)?;
            Ok((Lang::Two, rest))
        }
    }
}

/// Takes the lines of a program.
#[tactic(auto, unfolding(crate::specs::Reading::program_at))]
fn program(bytes: &[u8]) -> Result<(&[u8], &[u8]), ReadError>
    ensures { Gives (λ x. (x.0.now, x.1.now)) result (program_at bytes.now) }
{
    let rest = word(DueKind::Section, b"program ", bytes)?;
    let (len, rest) = decimal(text_length(), rest)?;
    let (program, rest) = counted_bytes(len, rest)?;
    let rest = word(DueKind::Section, b"\n", rest)?;
    Ok((program, rest))
}

/// How many of so many values the bytes may hold, each of which takes two bytes at least.
fn capacity_for(count: u32, bytes: &[u8]) -> usize
    ensures { result ≡ min count (length bytes.now / 2) }
{
    (count as usize).min(bytes.len() / 2)
}

/// Takes this many values.
fn values(alloc: Global, count: u32, bytes: &[u8]) -> Result<(Vec<Fp>, &[u8]), ReadError>
    ensures { Gives (λ x. (x.0.items, x.1.now)) result (values_at count bytes.now) }
{
    let mut values = Vec::with_capacity(alloc, capacity_for(count, bytes))?;
    let mut rest = bytes;
    for index in 0..count {
        let (number, after) = decimal(value_rule(count - index - 1), rest)?;
        values.push(Fp::reduce(u64::from(number)))?;
        rest = after;
    }
    Ok((values, rest))
}

/// Takes a count from the beginning and as many values on its line, and answers them with what follows. It stops at the first byte
/// that isn't due, or at the end; memory may run out.
#[tactic(auto, unfolding(crate::specs::Reading::counted_at))]
pub fn counted(alloc: Global, bytes: &[u8]) -> Result<(Vec<Fp>, &[u8]), ReadError>
    ensures { Gives (λ x. (x.0.items, x.1.now)) result (counted_at bytes.now) }
{
    let (count, rest) = decimal(value_count(), bytes)?;
    values(alloc, count, rest)
}

/// Takes the line of the outputs.
#[tactic(auto, unfolding(crate::specs::Reading::outputs_at))]
fn outputs(alloc: Global, bytes: &[u8]) -> Result<(Vec<Fp>, &[u8]), ReadError>
    ensures { Gives (λ x. (x.0.items, x.1.now)) result (outputs_at bytes.now) }
{
    let rest = word(DueKind::Section, b"output ", bytes)?;
    counted(alloc, rest)
}

/// Takes this many bytes in hex digits, two for each byte.
fn hex_bytes(alloc: Global, count: u32, bytes: &[u8]) -> Result<(Vec<u8>, &[u8]), ReadError>
    ensures { Gives (λ x. (x.0.items, x.1.now)) result (each_at hex_byte_at count bytes.now) }
{
    let needed = 2 * count as usize;
    if bytes.len() < needed {
        return Err(digits_stop(bytes));
    }
    let (digits, rest) = bytes.split_at(needed);
    match hex::decode(alloc, digits) {
        Ok(values) => Ok((values, rest)),
        Err(refused) => Err(hex_stop(refused, bytes)),
    }
}

/// Where hex digits that don't decode stop.
fn hex_stop(refused: FromHexError, bytes: &[u8]) -> ReadError
    ensures { result ≡ hex_stop refused bytes.now }
{
    match refused {
        FromHexError::InvalidHexCharacter { .. }
        | FromHexError::OddLength
        | FromHexError::InvalidStringLength => digits_stop(bytes),
        FromHexError::OutOfMemory => ReadError::Memory,
    }
}

/// Where hex digits stop: before the first byte that is none, or at the end.
#[tactic(auto, unfolding(crate::specs::Due::digits_stop))]
fn digits_stop(bytes: &[u8]) -> ReadError
    ensures { result ≡ ReadError.Stopped (digits_stop bytes.now) }
{
    let mut rest = bytes;
    while let [byte, tail @ ..] = rest {
        if !byte.is_ascii_hexdigit() {
            return stop_at(rest, DueKind::Hex);
        }
        rest = tail;
    }
    stop_at(rest, DueKind::End)
}

/// Takes the lines of a proof.
#[tactic(auto, unfolding(crate::specs::Reading::proof_at))]
fn proof(alloc: Global, bytes: &[u8]) -> Result<(Vec<u8>, &[u8]), ReadError>
    ensures { Gives (λ x. (x.0.items, x.1.now)) result (proof_at bytes.now) }
{
    let rest = word(DueKind::Section, b"proof ", bytes)?;
    let (len, rest) = decimal(proof_length(), rest)?;
    let (proof, rest) = hex_bytes(alloc, len, rest)?;
    let rest = word(DueKind::Hex, b"\n", rest)?;
    Ok((proof, rest))
}

/// Takes the line of the outputs, where it is due.
#[tactic(auto, unfolding(crate::specs::Due::line_at, text_parts::specs::Parts::choice_at))]
fn outputs_of(
    alloc: Global,
    form: Form,
    bytes: &[u8],
) -> Result<(Option<Vec<Fp>>, &[u8]), ReadError>
    ensures { Gives (λ x. (option_map (λ v. v.items) x.0, x.1.now)) result
        (line_at form (initial (codes "output ")) outputs_at bytes.now) }
{
    match (form, bytes) {
        (Form::Plain, _) => return Ok((None, bytes)),
        (Form::Full, _) => {}
        (Form::Any, []) => return Err(stop_at(bytes, DueKind::End)),
        (Form::Any, [first, ..]) => {
            if *first != b'o' {
                return Ok((None, bytes));
            }
        }
    }
    let (outputs, rest) = outputs(alloc, bytes)?;
    Ok((Some(outputs), rest))
}

/// Takes the lines of the proof, where they are due.
#[tactic(auto, unfolding(crate::specs::Due::line_at, text_parts::specs::Parts::choice_at))]
fn proof_of(alloc: Global, form: Form, bytes: &[u8]) -> Result<(Option<Vec<u8>>, &[u8]), ReadError>
    ensures { Gives (λ x. (option_map (λ v. v.items) x.0, x.1.now)) result
        (line_at form (initial (codes "proof ")) proof_at bytes.now) }
{
    match form {
        Form::Plain => Ok((None, bytes)),
        Form::Full => {
            let (proof, rest) = proof(alloc, bytes)?;
            Ok((Some(proof), rest))
        }
        Form::Any => match bytes {
            [] => Err(stop_at(bytes, DueKind::End)),
            [b'p', ..] => {
                let (proof, rest) = proof(alloc, bytes)?;
                Ok((Some(proof), rest))
            }
            _ => Ok((None, bytes)),
        },
    }
}

/// Takes the case of a form that a prefix of the bytes spells, and answers it with what follows. It stops at the first byte
/// that isn't due, or at the end; memory may run out.
#[tactic(auto, unfolding(crate::specs::Reading::case_at))]
pub fn case_of(alloc: Global, form: Form, bytes: &[u8]) -> Result<(Case, &[u8]), ReadError>
    ensures { Gives (λ x. (x.0, x.1.now)) result (case_at form bytes.now) }
{
    let rest = word(DueKind::Header, b"gkr case ", bytes)?;
    let (lang, rest) = language(rest)?;
    let rest = word(DueKind::Header, b"\n", rest)?;
    let (program, rest) = program(rest)?;
    let rest = word(DueKind::Section, b"input ", rest)?;
    let (inputs, rest) = counted(alloc, rest)?;
    let (outputs, rest) = outputs_of(alloc, form, rest)?;
    let (proof, rest) = proof_of(alloc, form, rest)?;
    let rest = word(DueKind::Section, b"end\n", rest)?;
    let program = Vec::from_slice(alloc, program)?;
    Ok((Case::new(lang, program, inputs, outputs, proof), rest))
}

/// Takes a case, after which nothing comes.
#[tactic(auto, using(text_parts::proofs::api::Whole::end_taken, text_parts::proofs::api::Whole::end_fails))]
fn whole(alloc: Global, form: Form, bytes: &[u8]) -> Result<Case, ReadError>
    ensures { Gives (λ c. c) result (case_in form bytes.now) }
{
    let (case, rest) = case_of(alloc, form, bytes)?;
    end(rest)?;
    Ok(case)
}

/// Takes a case, and names a refusal by its place.
fn placed(alloc: Global, form: Form, bytes: &[u8]) -> Result<Case, CaseRefused>
    ensures { Answers result (reading form bytes.now) }
{
    match whole(alloc, form, bytes) {
        Ok(case) => Ok(case),
        Err(error) => Err(refusal_of(error, bytes)),
    }
}

/// The case of a form that all of the bytes spell, read in one pass.
///
/// `Bad` comes where they spell none, with the place of the first byte that isn't taken and what was due there.
/// `Memory` comes where memory for its lists runs out.
pub fn read_case(alloc: Global, bytes: &[u8], form: Form) -> Result<Case, CaseRefused>
    // What is read is spelled so.
    ensures found { IfOk result (λ c. Spells form bytes.now c) }
    // What is spelled so is read, unless memory runs out.
    ensures only { (c : Content) → Spells form bytes.now c → Answers result (Ok c) }
    // Which refusal it is.
    ensures exact { Answers result (reading form bytes.now) }
{
    placed(alloc, form, bytes)
}
