//! Writing the text of a case.

ghost use Rattle.std.specs.Prelude.{◌≡◌, [], ◌∷◌, ◌++◌, IfOk, OnOk, IfSome};
ghost use Rattle.case_text.specs.Rules.{after_value};
ghost use Rattle.case_text.specs.declared.case.form.Form.{Form};
ghost use Rattle.case_text.specs.Forms.{Allows};
ghost use Rattle.case_text.specs.Spelling.{language_text, number as number_text, values_text, counted_text, program_text, outputs_text, lower_proof_text, lower_case_text, Spells};
ghost use Rattle.case_text.specs.Content.{Fits};
ghost use Rattle.case_text.specs.Hex.{IsHexOf};
ghost use Rattle.hex.specs.Hex.{encode_lower};
ghost use Rattle.std.specs.Option.{option_map};
ghost use Rattle.std.specs.String.{string_bytes};

use crate::case::Case;
use arr_ast::Lang;
use field_ext::Fp;
use itoa::Buffer;
use std::alloc::{AllocError, Global};

/// A decimal, and the byte after it.
pub fn put_number(out: &mut Vec<u8>, number: u64, after: u8) -> Result<(), AllocError>
    ensures { OnOk result (out.new.items ≡ out.old.items ++ number_text number after) }
{
    let mut digits = Buffer::new();
    out.extend_from_slice(digits.format(number).as_bytes())?;
    out.push(after)?;
    Ok(())
}

fn put_values(out: &mut Vec<u8>, values: &[Fp]) -> Result<(), AllocError>
    ensures { OnOk result (out.new.items ≡ out.old.items ++ values_text values.now) }
{
    let mut following = values.len();
    for value in values {
        following -= 1;
        put_number(out, u64::from(value.value()), after_value(following))?;
    }
    Ok(())
}

/// What comes after a value that this many follow.
pub fn after_value(following: usize) -> u8
    ensures { result ≡ after_value following }
{
    if following == 0 { b'\n' } else { b' ' }
}

/// At least as many bytes as the text of a case has.
fn capacity_for(case: &Case) -> usize {
    let values = case.inputs().len() + case.outputs().unwrap_or(&[]).len();
    let proof = case.proof().unwrap_or(&[]).len();
    100 + case.program().len() + 11 * values + 2 * proof
}

/// The number of a language.
fn language_digit(lang: Lang) -> u8
    ensures { language_text lang ≡ result ∷ [] }
{
    match lang {
        Lang::One => b'1',
        Lang::Two => b'2',
    }
}

fn put_program(out: &mut Vec<u8>, program: &[u8]) -> Result<(), AllocError>
    ensures { OnOk result (out.new.items ≡ out.old.items ++ program_text program.now) }
{
    out.extend_from_slice(b"program ")?;
    put_number(out, program.len() as u64, b'\n')?;
    out.extend_from_slice(program)?;
    out.push(b'\n')?;
    Ok(())
}

/// Values after their count.
pub fn put_counted(out: &mut Vec<u8>, values: &[Fp]) -> Result<(), AllocError>
    ensures { OnOk result (out.new.items ≡ out.old.items ++ counted_text values.now) }
{
    put_number(out, values.len() as u64, after_value(values.len()))?;
    put_values(out, values)
}

fn put_outputs(out: &mut Vec<u8>, outputs: Option<&[Fp]>) -> Result<(), AllocError>
    ensures { OnOk result (out.new.items ≡ out.old.items ++ outputs_text
        (option_map (λ values. values.now) outputs.entry)) }
{
    if let Some(values) = outputs {
        out.extend_from_slice(b"output ")?;
        put_counted(out, values)?;
    }
    Ok(())
}

/// The digits of bytes in lower case, two for each, the high one first.
pub fn hex_text(alloc: Global, bytes: &[u8]) -> Result<String, AllocError>
    ensures text { IfOk result (λ text. string_bytes text ≡ encode_lower bytes.now) }
    ensures hex { IsHexOf bytes.now (encode_lower bytes.now) }
{
    hex::encode(alloc, bytes)
}

fn put_proof(alloc: Global, out: &mut Vec<u8>, proof: Option<&[u8]>) -> Result<(), AllocError>
    ensures text { OnOk result
        (out.new.items ≡ out.old.items ++ lower_proof_text
        (option_map (λ bytes. bytes.now) proof.entry)) }
    ensures hex { OnOk result (IfSome (option_map (λ bytes. bytes.now) proof.entry)
        (λ bytes. IsHexOf bytes (encode_lower bytes))) }
{
    if let Some(bytes) = proof {
        out.extend_from_slice(b"proof ")?;
        put_number(out, bytes.len() as u64, b'\n')?;
        let digits = hex_text(alloc, bytes)?;
        out.extend_from_slice(digits.as_bytes())?;
        out.push(b'\n')?;
    }
    Ok(())
}

fn lower_text(alloc: Global, case: &Case) -> Result<Vec<u8>, AllocError>
    ensures text { IfOk result (λ text. text.items ≡ lower_case_text case.now) }
    ensures hex { IfOk result
        (λ text. IfSome case.now.proof (λ proof. IsHexOf proof (encode_lower proof))) }
    ensures fits { IfOk result (λ text. Fits case.now) }
{
    let mut out = Vec::with_capacity(alloc, capacity_for(case))?;
    out.extend_from_slice(b"gkr case ")?;
    out.push(language_digit(case.lang()))?;
    out.push(b'\n')?;
    put_program(&mut out, case.program())?;
    out.extend_from_slice(b"input ")?;
    put_counted(&mut out, case.inputs())?;
    put_outputs(&mut out, case.outputs())?;
    put_proof(alloc, &mut out, case.proof())?;
    out.extend_from_slice(b"end\n")?;
    Ok(out)
}

/// The text of a case, its hex digits in lower case. The error comes where memory runs out.
pub fn write_case(alloc: Global, case: &Case) -> Result<Vec<u8>, AllocError>
    ensures text { IfOk result (λ text. text.items ≡ lower_case_text case.now) }
    ensures spells { IfOk result (λ text. (form : Form) → Allows form case.now.outputs
        → Allows form case.now.proof → Spells form text.items case.now) }
{
    lower_text(alloc, case)
}
