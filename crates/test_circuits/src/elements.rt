//! Elements by numbers.

use field_ext::{Ext, Fp};
use std::alloc::{AllocError, Global};

/// The element of a number modulo the prime.
pub fn number(n: i32) -> Ext {
    let size = Ext::embed(Fp::reduce(n.unsigned_abs() as u64));
    if n < 0 { -size } else { size }
}

/// The elements of these numbers.
pub fn numbers(alloc: Global, ns: &[i32]) -> Result<Vec<Ext>, AllocError> {
    let mut elements = Vec::new(alloc);
    for n in ns {
        elements.push(number(*n))?;
    }
    Ok(elements)
}
