//! Small programs with inputs, made from a generator of numbers.

ghost use Rattle.std.specs.Prelude.{◌<◌};

use rand_core::Rng;
use rand_xoshiro::Xoshiro256PlusPlus;
use std::alloc::{AllocError, Global};

/// A number below `many`.
pub fn below(rng: &mut Xoshiro256PlusPlus, many: u32) -> u32
    requires { 0 < many }
    ensures { result < many }
{
    rng.next_u32() % many
}

/// Appends a number's decimal.
fn put_number(alloc: Global, out: &mut Vec<u8>, number: u32) -> Result<(), AllocError> {
    out.extend_from_slice(format!(in alloc; "{}", number)?.as_bytes())
}

/// Appends a sign of an operator.
fn put_sign(rng: &mut Xoshiro256PlusPlus, out: &mut Vec<u8>) -> Result<(), AllocError> {
    let sign = match below(rng, 3) {
        0 => b'+',
        1 => b'-',
        _ => b'*',
    };
    out.push(sign)?;
    Ok(())
}

/// A constant: mostly small, else anywhere below the prime.
fn constant(rng: &mut Xoshiro256PlusPlus) -> u32 {
    if below(rng, 4) == 0 {
        below(rng, 2_147_483_647)
    } else {
        below(rng, 10)
    }
}

/// Appends one of the first `names` letters, or, where it may, a number.
fn put_leaf(
    rng: &mut Xoshiro256PlusPlus,
    alloc: Global,
    out: &mut Vec<u8>,
    names: u8,
    numbers: bool,
) -> Result<(), AllocError> {
    if numbers && below(rng, 3) == 0 {
        let number = constant(rng);
        return put_number(alloc, out, number);
    }
    let letter = below(rng, u32::from(names).clamp(1, 26)) as u8;
    out.push(b'a' + letter)?;
    Ok(())
}

/// Appends an expression over the first `names` letters, no deeper than `depth`, with numbers where these are of its shape.
pub fn put_expression(
    rng: &mut Xoshiro256PlusPlus,
    alloc: Global,
    out: &mut Vec<u8>,
    names: u8,
    numbers: bool,
    depth: u32,
) -> Result<(), AllocError> {
    if depth == 0 || below(rng, 4) == 0 {
        return put_leaf(rng, alloc, out, names, numbers);
    }
    match below(rng, 6) {
        0 => {
            out.push(b'-')?;
            put_expression(rng, alloc, out, names, numbers, depth - 1)
        }
        1 => {
            out.extend_from_slice(b"scale(")?;
            put_number(alloc, out, constant(rng))?;
            out.push(b',')?;
            put_expression(rng, alloc, out, names, numbers, depth - 1)?;
            out.push(b')')?;
            Ok(())
        }
        _ => {
            out.push(b'(')?;
            put_expression(rng, alloc, out, names, numbers, depth - 1)?;
            put_sign(rng, out)?;
            put_expression(rng, alloc, out, names, numbers, depth - 1)?;
            out.push(b')')?;
            Ok(())
        }
    }
}

/// Appends a declaration of an input with up to two dimensions, of which 0 is none.
fn put_input(
    alloc: Global,
    out: &mut Vec<u8>,
    name: u8,
    rows: u32,
    columns: u32,
) -> Result<(), AllocError> {
    out.extend_from_slice(b"input ")?;
    out.push(name)?;
    for many in [rows, columns] {
        if many > 0 {
            out.push(b'[')?;
            put_number(alloc, out, many)?;
            out.push(b']')?;
        }
    }
    out.extend_from_slice(b"; ")
}

/// One or two scalar outputs over three scalars.
fn put_scalars(
    rng: &mut Xoshiro256PlusPlus,
    alloc: Global,
    out: &mut Vec<u8>,
) -> Result<u32, AllocError> {
    for name in [b'a', b'b', b'c'] {
        put_input(alloc, out, name, 0, 0)?;
    }
    for _ in 0..1 + below(rng, 2) {
        out.extend_from_slice(b"output ")?;
        put_expression(rng, alloc, out, 3, true, 4)?;
        out.extend_from_slice(b"; ")?;
    }
    Ok(3)
}

/// Element-wise operations on two vectors, their sum and the last of them.
fn put_vectors(
    rng: &mut Xoshiro256PlusPlus,
    alloc: Global,
    out: &mut Vec<u8>,
) -> Result<u32, AllocError> {
    let many = 1 + below(rng, 9);
    put_input(alloc, out, b'a', many, 0)?;
    put_input(alloc, out, b'b', many, 0)?;
    out.extend_from_slice(b"let c = ")?;
    put_expression(rng, alloc, out, 2, false, 3)?;
    out.extend_from_slice(b"; output sum(")?;
    put_expression(rng, alloc, out, 3, false, 3)?;
    out.extend_from_slice(b"); output dot(a,")?;
    put_expression(rng, alloc, out, 3, false, 2)?;
    out.extend_from_slice(b"); output c;")?;
    Ok(2 * many)
}

/// A product of two matrices, and a transposed one.
fn put_matrices(
    rng: &mut Xoshiro256PlusPlus,
    alloc: Global,
    out: &mut Vec<u8>,
) -> Result<u32, AllocError> {
    let (rows, inner, columns) = (1 + below(rng, 4), 1 + below(rng, 4), 1 + below(rng, 4));
    put_input(alloc, out, b'a', rows, inner)?;
    put_input(alloc, out, b'b', inner, columns)?;
    out.extend_from_slice(b"let c = matmul(a,b); output sum(c); output transpose(c);")?;
    if below(rng, 2) == 0 {
        out.extend_from_slice(b" output matmul(transpose(c),")?;
        put_expression(rng, alloc, out, 1, false, 2)?;
        out.extend_from_slice(b");")?;
    }
    Ok(rows * inner + inner * columns)
}

/// A loop that carries a number over the elements of a vector.
fn put_loop(
    rng: &mut Xoshiro256PlusPlus,
    alloc: Global,
    out: &mut Vec<u8>,
) -> Result<u32, AllocError> {
    let many = 1 + below(rng, 8);
    put_input(alloc, out, b'v', many, 0)?;
    out.extend_from_slice(b"let a = 1; let b = 0; for i in 0..")?;
    put_number(alloc, out, many)?;
    out.extend_from_slice(b" { let c = v[i]; a = ")?;
    put_expression(rng, alloc, out, 3, true, 3)?;
    out.extend_from_slice(b"; b = b + i * a; v[i] = a; } output b; output v;")?;
    Ok(many)
}

/// A program, and how many inputs it needs unless it is refused.
#[derive(Drop)]
pub struct MadeProgram {
    pub text: Vec<u8>,
    pub inputs: u32,
}

/// A program of one of four kinds, and now and then with one byte changed.
pub fn make_program(
    rng: &mut Xoshiro256PlusPlus,
    alloc: Global,
) -> Result<MadeProgram, AllocError> {
    let mut text = Vec::new(alloc);
    let inputs = match below(rng, 4) {
        0 => put_scalars(rng, alloc, &mut text)?,
        1 => put_vectors(rng, alloc, &mut text)?,
        2 => put_matrices(rng, alloc, &mut text)?,
        _ => put_loop(rng, alloc, &mut text)?,
    };
    if below(rng, 8) == 0 {
        change(rng, &mut text);
    }
    Ok(MadeProgram { text, inputs })
}

/// Changes one byte, where there is any.
fn change(rng: &mut Xoshiro256PlusPlus, text: &mut Vec<u8>) {
    let many = text.len().min(1_000_000) as u32;
    if many > 0 {
        let place = below(rng, many) as usize;
        let other = 1 + below(rng, 255) as u8;
        text[place] ^= other;
    }
}

/// A digit other than this one: mostly another value, now and then the same value as a capital letter.
fn other_digit(rng: &mut Xoshiro256PlusPlus, digit: u8) -> u8 {
    if digit.is_ascii_lowercase() && below(rng, 4) == 0 {
        return digit.to_ascii_uppercase();
    }
    let step = 1 + below(rng, 9) as u8;
    if digit.is_ascii_digit() {
        b'0' + (digit - b'0' + step) % 10
    } else {
        b'0' + step
    }
}

/// Changes one byte of a case's text, mostly a digit to another digit, where there is any.
pub fn spoil(rng: &mut Xoshiro256PlusPlus, text: &mut Vec<u8>) {
    let many = text.len().min(1_000_000) as u32;
    if many > 0 && below(rng, 8) > 0 {
        let place = below(rng, many) as usize;
        if text[place].is_ascii_hexdigit() {
            text[place] = other_digit(rng, text[place]);
            return;
        }
    }
    change(rng, text);
}

/// The text of a case of a program and inputs, and now and then with an input too many.
pub fn case_text(
    rng: &mut Xoshiro256PlusPlus,
    alloc: Global,
    program: &MadeProgram,
) -> Result<Vec<u8>, AllocError> {
    let mut text = Vec::new(alloc);
    text.extend_from_slice(b"gkr case 1\nprogram ")?;
    text.extend_from_slice(format!(in alloc; "{}", program.text.len())?.as_bytes())?;
    text.push(b'\n')?;
    text.extend_from_slice(&program.text)?;
    let more = if below(rng, 16) == 0 { 1 } else { 0 };
    let many = program.inputs.saturating_add(more);
    text.extend_from_slice(b"\ninput ")?;
    put_number(alloc, &mut text, many)?;
    for _ in 0..many {
        text.push(b' ')?;
        put_number(alloc, &mut text, constant(rng))?;
    }
    text.extend_from_slice(b"\nend\n")?;
    Ok(text)
}
