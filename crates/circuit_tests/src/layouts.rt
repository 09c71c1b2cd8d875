//! Lists of nodes with the circuits that they are laid out as, and those that exceed a limit.

ghost use Rattle.std.specs.Prelude.{◌<◌, ◌^◌, IsTrue, length};
ghost use Rattle.node_core.specs.Nodes.{IsFineAt};

use crate::gates::{add_node, mul_node};
use circuit_core::{Circuit, Kind, Leaf};
use field_ext::Fp;
use layer_compile::{LayerRefused, Limits, layer};
use node_core::{Node, NodeList, NodeListBuilder};
use std::alloc::{AllocError, Global};
use std::process::Abort;
use std::test::Fail;

fn is_fine(inputs: u32, k: usize, node: &Node) -> bool
    ensures { IsTrue result → IsFineAt inputs k node.now }
{
    match node {
        Node::Input(j) => *j < inputs,
        Node::Constant(_) => true,
        Node::Operation(gate) => (gate.left as usize) < k && (gate.right as usize) < k,
    }
}

/// The program of these nodes and outputs.
fn program(alloc: Global, inputs: u32, nodes: &[Node], outputs: &[u32]) -> Result<NodeList, Fail>
    requires nodes { length nodes.now < 2 ^ 20 }
    requires outputs { length outputs.now < 2 ^ 20 }
{
    let mut list = NodeListBuilder::new(alloc, inputs);
    for (k, node) in nodes.iter().enumerate() {
        if !is_fine(inputs, k, node) {
            return Err(Fail::new("a node that stands on none before it"));
        }
        list.push(*node)?;
    }
    for output in outputs {
        if *output as usize >= nodes.len() {
            return Err(Fail::new("an output that is no node"));
        }
        list.output(*output)?;
    }
    if outputs.len() == 0 {
        return Err(Fail::new("no output"));
    }
    Ok(list.finish())
}

/// The gates of each layer by position, and the width of the input layer with the leaves.
pub(crate) fn show(alloc: Global, circuit: &Circuit) -> Result<String, AllocError> {
    let mut text = String::new(alloc);
    for layer in 0..circuit.height() {
        for gate in circuit.gates(layer) {
            let sign = match gate.kind {
                Kind::Add => '+',
                Kind::Mul => '*',
            };
            write!(&mut text, "{}{}{} ", gate.left, sign, gate.right)?;
        }
        write!(&mut text, "/ ")?;
    }
    write!(&mut text, "{}:", circuit.width(circuit.height()))?;
    for leaf in circuit.leaves() {
        match leaf {
            Leaf::Input(j) => write!(&mut text, " in{}", *j)?,
            Leaf::Const(value) => write!(&mut text, " {}", value.value())?,
        }
    }
    Ok(text)
}

fn shows<R: Abort + AllocGlobal>(rt: &R, list: &NodeList, want: &str) -> Result<(), Fail> {
    let Ok(circuit) = layer(rt.alloc(), list, Limits::greatest()) else {
        return Err(Fail::new("refused"));
    };
    assert_eq!(rt; show(rt.alloc(), &circuit)?.as_str(), want);
    Ok(())
}

fn refuses<R: Abort + AllocGlobal>(rt: &R, list: &NodeList, limits: Limits, want: LayerRefused) {
    assert_eq!(rt; layer(rt.alloc(), list, limits).err(), Some(want));
}

const A: Node = Node::Input(0);

const B: Node = Node::Input(1);

const C: Node = Node::Input(2);

#[test]
fn lays_out_by_position(rt: HostRuntime) -> Result<(), Fail> {
    let alloc = rt.alloc();
    let product = program(alloc, 2, &[A, B, mul_node(0, 1)], &[2])?;
    shows(&rt, &product, "0+0 1+0 / 0+0 1*2 / 4: in0 in1")?;
    let minus_one = Node::Constant(-Fp::one());
    let difference = program(
        alloc,
        2,
        &[A, B, minus_one, mul_node(1, 2), add_node(0, 3)],
        &[4],
    )?;
    shows(
        &rt,
        &difference,
        "0+0 1+0 / 0+0 1+2 / 0+0 1+0 2*3 0+0 / 4: in0 in1 2147483646",
    )?;
    let sum = program(alloc, 3, &[A, B, C, add_node(0, 1), add_node(3, 2)], &[4])?;
    shows(
        &rt,
        &sum,
        "0+0 1+0 / 0+0 2+1 / 0+0 3+0 1+2 0+0 / 4: in0 in1 in2",
    )
}

/// The nodes of the sum of the product of two matrices of two rows and two columns: eight products, four sums of two, and their
/// sum.
fn product_nodes(alloc: Global) -> Result<Vec<Node>, AllocError> {
    let mut nodes = Vec::new(alloc);
    for j in 0..8 {
        nodes.push(Node::Input(j))?;
    }
    for (first, left, right) in [(8, 0, 4), (11, 0, 5), (14, 2, 4), (17, 2, 5)] {
        nodes.push(mul_node(left, right))?;
        nodes.push(mul_node(left + 1, right + 2))?;
        nodes.push(add_node(first, first + 1))?;
    }
    nodes.push(add_node(10, 13))?;
    nodes.push(add_node(16, 19))?;
    nodes.push(add_node(20, 21))?;
    Ok(nodes)
}

#[test]
fn lays_a_matrix_product_out_by_position(rt: HostRuntime) -> Result<(), Fail> {
    let alloc = rt.alloc();
    let nodes = product_nodes(alloc)?;
    if nodes.len() >= 1 << 20 {
        return Err(Fail::new("too many nodes"));
    }
    let list = program(alloc, 8, &nodes, &[22])?;
    shows(
        &rt,
        &list,
        "0+0 1+0 / 0+0 1+2 / 0+0 1+2 3+4 0+0 / 0+0 1+2 3+4 5+6 7+8 0+0 0+0 0+0 / \
0+0 1*5 2*7 1*6 2*8 3*5 4*7 3*6 4*8 0+0 0+0 0+0 0+0 0+0 0+0 0+0 / \
16: in0 in1 in2 in3 in4 in5 in6 in7",
    )
}

#[test]
fn drops_unneeded_nodes(rt: HostRuntime) -> Result<(), Fail> {
    let alloc = rt.alloc();
    let list = program(alloc, 2, &[A, B, mul_node(0, 1), add_node(2, 2)], &[0, 0])?;
    shows(&rt, &list, "0+0 1+0 1+0 0+0 / 4: in0 in1")
}

#[test]
fn refuses_by_limits(rt: HostRuntime) -> Result<(), Fail> {
    let alloc = rt.alloc();
    let many = program(
        alloc,
        3,
        &[
            A,
            B,
            C,
            mul_node(0, 1),
            mul_node(0, 2),
            mul_node(1, 2),
            add_node(0, 1),
        ],
        &[3, 4, 5, 6],
    )?;
    for (height, exponent, want) in [
        (1, 1, LayerRefused::Deep { levels: 2 }),
        (
            2,
            1,
            LayerRefused::Wide {
                height: 0,
                width: 4,
            },
        ),
        (
            2,
            2,
            LayerRefused::Wide {
                height: 1,
                width: 5,
            },
        ),
    ] {
        if height <= 256 && exponent <= 16 {
            refuses(&rt, &many, Limits::of(height, exponent), want);
        }
    }
    Ok(())
}

/// A value doubled so many times.
fn doubled(alloc: Global, times: u32) -> Result<NodeList, AllocError>
    requires { times < 2000 }
{
    let mut list = NodeListBuilder::new(alloc, 1);
    let mut last = list.push(A)?;
    for _ in 0..times {
        last = list.push(add_node(last, last))?;
    }
    list.output(last)?;
    Ok(list.finish())
}

/// Sees that limits let so many levels through, and not one more.
fn lets_through<R: Abort + AllocGlobal>(rt: &R, limits: Limits, levels: u32) -> Result<(), Fail>
    requires some { 0 < levels }
    requires few { levels < 2000 }
{
    let Ok(circuit) = layer(rt.alloc(), &doubled(rt.alloc(), levels - 1)?, limits) else {
        return Err(Fail::new("refused"));
    };
    let levels_of_circuit = levels as usize;
    assert_eq!(rt; circuit.height(), levels_of_circuit);
    let deep = LayerRefused::Deep {
        levels: levels_of_circuit + 1,
    };
    refuses(rt, &doubled(rt.alloc(), levels)?, limits, deep);
    Ok(())
}

#[test]
fn is_deep_past_the_height_of_its_limits(rt: HostRuntime) -> Result<(), Fail> {
    lets_through(&rt, Limits::of(256, 16), 256)?;
    lets_through(&rt, Limits::greatest(), 1024)
}
