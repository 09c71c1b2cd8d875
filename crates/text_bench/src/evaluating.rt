//! What a program takes, and what plain loops take beside it.

use arr_ast::Lang;
use arr_check::Checked;
use arr_compile::{CompileRefused, read_program};
use arr_eval::eval;
use bench_parts::{microseconds_since, numbers};
use field_ext::Fp;
use std::alloc::Global;
use std::io;
use std::time::Instant;

/// The program of a text, where it is one of at most 65,536 bytes.
fn read(alloc: Global, text: &[u8]) -> Option<Checked> {
    if text.len() > 65_536 {
        return None;
    }
    read_program(alloc, text, Lang::Two).ok()
}

/// How many microseconds evaluating a program took. None where memory is out.
fn time_evaluating(rt: &HostRuntime, checked: &Checked) -> io::Result<Option<u64>> {
    let inputs = numbers(rt.alloc(), checked.inputs)?;
    let begun = Instant::now(rt)?;
    if eval(rt.alloc(), checked, &inputs).is_err() {
        return Ok(None);
    }
    Ok(Some(microseconds_since(rt, begun)?))
}

/// How many microseconds evaluating a program took, after those that reading it took; says why
/// where it isn't evaluated.
fn evaluated(
    rt: &HostRuntime,
    kind: &str,
    checked: &Option<Checked>,
    reading: u64,
) -> io::Result<Option<(u64, u64)>> {
    let Some(checked) = checked else {
        println!(rt; "{}: the program is refused", kind)?;
        return Ok(None);
    };
    let Some(evaluating) = time_evaluating(rt, checked)? else {
        println!(rt; "{}: no memory", kind)?;
        return Ok(None);
    };
    Ok(Some((reading, evaluating)))
}

/// How many microseconds reading and evaluating a program took; says why where it isn't evaluated.
fn time_once(rt: &HostRuntime, kind: &str, text: &[u8]) -> io::Result<Option<(u64, u64)>> {
    let begun = Instant::now(rt)?;
    let checked = read(rt.alloc(), text);
    let reading = microseconds_since(rt, begun)?;
    evaluated(rt, kind, &checked, reading)
}

/// Prints how long reading and evaluating a program took, the best of five.
pub fn program(rt: &HostRuntime, kind: &str, text: &[u8]) -> io::Result<()> {
    let mut reading = u64::MAX;
    let mut evaluating = u64::MAX;
    for _ in 0..5u32 {
        let Some((read, evaluated)) = time_once(rt, kind, text)? else {
            return Ok(());
        };
        reading = reading.min(read);
        evaluating = evaluating.min(evaluated);
    }
    println!(rt;
        "{}: {} bytes, read and checked in {} us, evaluated in {} us",
        kind,
        text.len(),
        reading,
        evaluating
    )
}

/// The least of five times of n squared sums of products in a plain loop, and a digest of them.
fn time_products(rt: &HostRuntime, n: u32, left: &[Fp], right: &[Fp]) -> io::Result<(u64, u32)> {
    let mut taken = u64::MAX;
    let mut seen = 0u32;
    for _ in 0..5u32 {
        let begun = Instant::now(rt)?;
        for place in 0..u64::from(n).saturating_mul(u64::from(n)) {
            seen ^= folded(place, left, right).value();
        }
        taken = taken.min(microseconds_since(rt, begun)?);
    }
    Ok((taken, seen))
}

/// Prints how long n^3 products and sums took in a plain loop, the best of five.
pub fn plain_products(rt: &HostRuntime, n: u32) -> io::Result<()> {
    let left = numbers(rt.alloc(), u64::from(n))?;
    let right = numbers(rt.alloc(), u64::from(n))?;
    let (taken, seen) = time_products(rt, n, &left, &right)?;
    println!(rt;
        "plain loop: as many products and sums in {} us ({})",
        taken, seen
    )
}

/// A sum of products in a plain loop, reduced each time.
#[inline(never)]
fn folded(first: u64, left: &[Fp], right: &[Fp]) -> Fp {
    let mut total = Fp::reduce(first);
    for (x, y) in left.iter().zip(right) {
        total = total + *x * *y;
    }
    total
}
