//! Programs of given sizes.

use std::alloc::{AllocError, Global};

/// The product of two matrices of n rows and n columns.
pub fn matrix_product(alloc: Global, n: u32) -> Result<String, AllocError> {
    format!(in alloc;
        "input a[{}][{}]; input b[{}][{}]; output matmul(a,b);",
        n, n, n, n
    )
}

/// A loop of n turns, each with one assignment.
pub fn steps(alloc: Global, n: u32) -> Result<String, AllocError> {
    format!(in alloc; "let s = 0; for i in 0..{} {{ s = 1; }} output s;", n)
}

/// Adds a piece of text so many times.
fn push_times(text: &mut String, piece: &str, times: usize) -> Result<(), AllocError> {
    for _ in 0..times {
        text.push_str(piece)?;
    }
    Ok(())
}

/// Adds so many names for `a`, as far as there is room.
fn push_copies(text: &mut String, n: u32) -> Result<(), AllocError> {
    for number in 0..n {
        if text.len() < 65_000 {
            write!(text, "let b{} = a; ", number)?;
        }
    }
    Ok(())
}

/// So many names that stand for one array of 512 by 511 numbers.
pub fn copies(alloc: Global, n: u32) -> Result<String, AllocError> {
    let mut text = format!(in alloc; "input a[512][511]; ")?;
    push_copies(&mut text, n)?;
    text.push_str("output a[0][0];")?;
    Ok(text)
}

/// A loop of so many turns, each with one more name for an array of 512 by 511 numbers.
pub fn copied(alloc: Global, n: u32) -> Result<String, AllocError> {
    format!(in alloc;
        "input a[512][511]; for i in 0..{} {{ let b = a; }} output a[0][0];",
        n
    )
}

/// A loop of so many turns, each with 60 transposes, one of another, of a matrix of 511 by 511 numbers.
pub fn transposes(alloc: Global, n: u32) -> Result<String, AllocError> {
    let mut text = format!(in alloc; "input a[511][511]; for i in 0..{} {{ a = ", n)?;
    push_times(&mut text, "transpose(", 60)?;
    text.push_str("a")?;
    push_times(&mut text, ")", 60)?;
    text.push_str("; } output a[0][0];")?;
    Ok(text)
}

/// A loop of 524,000 turns whose variable has so many letters, and whose body is empty.
pub fn letters(alloc: Global, n: u32) -> Result<String, AllocError> {
    let mut text = format!(in alloc; "let s = 0; for ")?;
    let room = 65_000usize.saturating_sub(text.len());
    push_times(&mut text, "i", room.min(n as usize))?;
    text.push_str(" in 0..524000 { } output s;")?;
    Ok(text)
}

/// Adds declarations, each a sum of names declared before, up to so many bytes.
fn push_sums(text: &mut String, most: u64) -> Result<(), AllocError> {
    for number in 0..65_536u32 {
        if (text.len() as u64) < most {
            write!(text, "let a{} = a{}+a{}; ", number + 1, number, number / 2)?;
        }
    }
    Ok(())
}

/// Declarations, each a sum of names declared before, up to a length in kibibytes.
pub fn names(alloc: Global, kib: u32) -> Result<String, AllocError> {
    let mut text = format!(in alloc; "input a0; ")?;
    push_sums(&mut text, (u64::from(kib) * 1024).saturating_sub(64))?;
    text.push_str("output a1;")?;
    Ok(text)
}

/// Three element-wise operations on a matrix of so many rows of 1,000 elements, and the sum: 5,000 nodes a row.
pub fn wide(alloc: Global, rows: u32) -> Result<String, AllocError> {
    format!(in alloc;
        "input a[{}][1000]; let b = a * a; let c = b + b; let d = c * c; output sum(d);",
        rows
    )
}

/// 60,000 inputs put out at the end, above a chain of so many products.
pub fn carried(alloc: Global, levels: u32) -> Result<String, AllocError> {
    format!(in alloc;
        "input a[60][1000]; input x; let y = x; for i in 0..{} {{ y = y * y; }} output a; output y;",
        levels
    )
}
