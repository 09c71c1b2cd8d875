//! Texts of programs with their circuits, through all passes.

use crate::layouts::show;
use arr_ast::Lang;
use arr_compile::compile;
use field_ext::Fp;
use std::alloc::{AllocError, Global};
use std::test::Fail;

const PRODUCT: &[u8] = b"input a; input b; output a*b;";

const COPIES: &[u8] = b"input a; output a; output a;";

const SUM: &[u8] = b"input v[3]; output sum(v);";

/// The elements of these numbers.
pub fn elements(alloc: Global, numbers: &[u64]) -> Result<Vec<Fp>, AllocError> {
    let mut found = Vec::new(alloc);
    for n in numbers {
        found.push(Fp::reduce(*n))?;
    }
    Ok(found)
}

#[test]
fn compiles_texts(rt: HostRuntime) -> Result<(), Fail> {
    let alloc = rt.alloc();
    for (text, want) in [
        (PRODUCT, "0+0 1+0 / 0+0 1*2 / 4: in0 in1"),
        (COPIES, "0+0 1+0 1+0 0+0 / 2: in0"),
        (SUM, "0+0 1+0 / 0+0 2+1 / 0+0 3+0 1+2 0+0 / 4: in0 in1 in2"),
    ] {
        assert!(rt; text.len() <= 65536);
        let Ok(compiled) = compile(alloc, text, Lang::One) else {
            return Err(Fail::new("no circuit"));
        };
        assert_eq!(rt; show(alloc, &compiled.circuit)?.as_str(), want);
    }
    Ok(())
}
