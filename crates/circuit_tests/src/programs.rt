//! Programs with their counts, and with the nodes that they are lowered to.

ghost use Rattle.std.specs.Prelude.{◌≤◌, length};

use crate::gates::{add_node, mul_node};
use arr_ast::{Factor, Lang, Program, Statement, TopStatement};
use arr_check::check;
use arr_lex::tokens;
use arr_lower::lower;
use arr_parse::parse;
use field_ext::Fp;
use node_core::Node;
use std::alloc::Global;
use std::process::Abort;
use std::test::Fail;

/// The tree of a text.
pub fn tree(alloc: Global, text: &[u8]) -> Result<Program, Fail>
    requires { length text.now ≤ 65536 }
{
    let Ok(found) = tokens(alloc, text) else {
        return Err(Fail::new("no tokens"));
    };
    match parse(alloc, text, &found, Lang::One) {
        Ok(program) => Ok(program),
        Err(_) => Err(Fail::new("no tree")),
    }
}

#[test]
fn numbers_a_name_by_its_first_token(rt: HostRuntime) -> Result<(), Fail> {
    let program = tree(rt.alloc(), b"input ab; let c = ab; output c;")?;
    let Some(input) = program.inputs.first() else {
        return Err(Fail::new("no input"));
    };
    assert_eq!(rt; (input.name.at, input.name.number), (6, 1));
    let Some(TopStatement::Inner(Statement::Let { name, value, .. })) = program.statements.first()
    else {
        return Err(Fail::new("no let"));
    };
    assert_eq!(rt; (name.at, name.number), (14, 4));
    let Factor::Name(read) = &value.first.first else {
        return Err(Fail::new("no name"));
    };
    assert_eq!(rt; (read.at, read.number), (18, 1));
    Ok(())
}

#[test]
fn counts_inputs_outputs_and_nodes(rt: HostRuntime) -> Result<(), Fail> {
    match check(
        rt.alloc(),
        tree(rt.alloc(), b"input v[2]; output v;")?,
        Lang::One,
    ) {
        Ok(checked) => {
            assert_eq!(rt; checked.inputs, 2);
            assert_eq!(rt; checked.outputs, 2);
            assert_eq!(rt; checked.nodes, 2);
        }
        Err(refused) => assert!(rt; false, "{refused}"),
    }
    Ok(())
}

/// Sees that a program has these nodes and outputs.
fn lowers<R: Abort + AllocGlobal>(
    rt: &R,
    text: &[u8],
    nodes: &[Node],
    outputs: &[u32],
) -> Result<(), Fail>
    requires { length text.now ≤ 65536 }
{
    match check(rt.alloc(), tree(rt.alloc(), text)?, Lang::One) {
        Ok(checked) => {
            let list = lower(rt.alloc(), &checked)?;
            assert_eq!(rt; *list.nodes(), *nodes);
            assert_eq!(rt; *list.outputs(), *outputs);
        }
        Err(refused) => assert!(rt; false, "{refused}"),
    }
    Ok(())
}

fn constant(value: u64) -> Node {
    Node::Constant(Fp::reduce(value))
}

const A: Node = Node::Input(0);

const B: Node = Node::Input(1);

const C: Node = Node::Input(2);

const D: Node = Node::Input(3);

#[test]
fn lowers_programs(rt: HostRuntime) -> Result<(), Fail> {
    lowers(
        &rt,
        b"input a; input b; output a * b + a * 2;",
        &[
            A,
            B,
            mul_node(0, 1),
            constant(2),
            mul_node(0, 3),
            add_node(2, 4),
        ],
        &[5],
    )?;
    lowers(
        &rt,
        b"input a; output a - a;",
        &[A, constant(2_147_483_646), mul_node(0, 1), add_node(0, 2)],
        &[3],
    )?;
    lowers(
        &rt,
        b"input v[3]; output sum(v);",
        &[A, B, C, add_node(0, 1), add_node(3, 2)],
        &[4],
    )?;
    lowers(
        &rt,
        b"let s = 1; for i in 1..3 { s = s * i; } output s;",
        &[constant(1), mul_node(0, 0), constant(2), mul_node(1, 2)],
        &[3],
    )
}

#[test]
fn multiplies_a_matrix_by_its_transpose(rt: HostRuntime) -> Result<(), Fail> {
    let nodes = [
        A,
        B,
        C,
        D,
        mul_node(0, 0),
        mul_node(1, 1),
        add_node(4, 5),
        mul_node(0, 2),
        mul_node(1, 3),
        add_node(7, 8),
        mul_node(2, 0),
        mul_node(3, 1),
        add_node(10, 11),
        mul_node(2, 2),
        mul_node(3, 3),
        add_node(13, 14),
    ];
    let text = b"input m[2][2]; output matmul(m, transpose(m));";
    lowers(&rt, text, &nodes, &[6, 9, 12, 15])
}
