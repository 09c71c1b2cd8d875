//! Texts of language 2: functions and their calls, what they put out and how many nodes that takes.

ghost use Rattle.std.specs.Prelude.{◌≤◌, length};

use crate::texts::elements;
use arr_ast::Lang;
use arr_compile::read_program;
use arr_eval::eval;
use arr_lower::lower;
use std::alloc::{AllocError, Global};
use std::process::Abort;
use std::test::Fail;

/// Sees that a text of language 2 puts this out, and has so many nodes.
fn puts_out<R: Abort + AllocGlobal>(
    rt: &R,
    text: &[u8],
    inputs: &[u64],
    outputs: &[u64],
    nodes: u64,
) -> Result<(), Fail>
    requires { length text.now ≤ 65536 }
{
    let alloc = rt.alloc();
    let checked = match read_program(alloc, text, Lang::Two) {
        Ok(checked) => checked,
        Err(refused) => {
            assert!(rt; false, "{refused}");
            return Err(Fail::new("no program"));
        }
    };
    let want = elements(alloc, outputs)?;
    let Ok(found) = eval(alloc, &checked, &elements(alloc, inputs)?) else {
        return Err(Fail::new("no outputs"));
    };
    assert_eq!(rt; found.as_slice(), want.as_slice());
    assert_eq!(rt; checked.nodes, nodes);
    assert_eq!(rt; lower(alloc, &checked)?.nodes().len() as u64, nodes);
    Ok(())
}

#[test]
fn evaluates_calls(rt: HostRuntime) -> Result<(), Fail> {
    puts_out(
        &rt,
        b"input a; def sq(x) = x*x; output sq(a)+sq(3);",
        &[5],
        &[34],
        5,
    )?;
    // The arguments in their order, and bodies that call those before.
    puts_out(
        &rt,
        b"def d(x,y) = x-y; def e(y,x) = d(y,x)*2; output e(9,4);",
        &[],
        &[10],
        7,
    )?;
    // An argument is a value of any shape, and is the same after the call.
    puts_out(
        &rt,
        b"input v[2]; input w[2]; def f(a,b) = dot(a,b)+sum(a); output f(v,w); output v;",
        &[1, 2, 3, 4],
        &[14, 1, 2],
        9,
    )?;
    // A loop variable is an argument like another, and a parameter may have its name.
    puts_out(
        &rt,
        b"def f(i) = i+1; let s = 0; for i in 0..3 { s = s+f(i); } output s;",
        &[],
        &[6],
        9,
    )?;
    // A body that isn't called is read, and not run.
    puts_out(&rt, b"def f(x) = y; output 1;", &[], &[1], 1)
}

/// A text of so many definitions, each of which calls the one before within so many levels, and a call of the last.
fn chain(
    alloc: Global,
    definitions: u32,
    open: &[u8],
    close: &[u8],
    levels: u32,
) -> Result<Vec<u8>, AllocError> {
    let mut text = Vec::new(alloc);
    for n in 0..definitions {
        text.extend_from_slice(b"def f")?;
        push_two_digits(&mut text, n)?;
        text.extend_from_slice(b"(x)=")?;
        for _ in 0..levels {
            text.extend_from_slice(open)?;
        }
        if n == 0 {
            text.push(b'x')?;
        } else {
            text.push(b'f')?;
            push_two_digits(&mut text, n - 1)?;
            text.extend_from_slice(b"(x)")?;
        }
        for _ in 0..levels {
            text.extend_from_slice(close)?;
        }
        text.extend_from_slice(b";")?;
    }
    text.extend_from_slice(b"output f")?;
    push_two_digits(&mut text, definitions.saturating_sub(1))?;
    text.extend_from_slice(b"(7);")?;
    Ok(text)
}

fn push_two_digits(text: &mut Vec<u8>, n: u32) -> Result<(), AllocError> {
    text.push(b'0' + (n / 10 % 10) as u8)?;
    text.push(b'0' + (n % 10) as u8)?;
    Ok(())
}

#[test]
fn runs_a_chain_of_calls_to_its_end(rt: HostRuntime) -> Result<(), Fail> {
    let text = chain(rt.alloc(), 64, b"(", b")", 60)?;
    assert!(rt; text.len() <= 65536);
    puts_out(&rt, &text, &[], &[7], 1)
}
