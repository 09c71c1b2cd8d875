//! The values of a list of nodes.

ghost use Rattle.std.specs.Prelude.{◌≡◌, IfOk};

use crate::gates::{add_node, mul_node};
use field_ext::Fp;
use node_core::{Node, NodeList, NodeListBuilder};
use std::alloc::{AllocError, Global};
use std::process::Abort;
use std::test::Fail;

/// The list of `a * b - b`, whose outputs are the difference and the product.
fn difference(alloc: Global) -> Result<NodeList, AllocError>
    ensures { IfOk result (λ l. l.inputs ≡ 2) }
{
    let mut nodes = NodeListBuilder::new(alloc, 2);
    let a = nodes.push(Node::Input(0))?;
    let b = nodes.push(Node::Input(1))?;
    let product = nodes.push(mul_node(a, b))?;
    let minus_one = nodes.push(Node::Constant(-Fp::one()))?;
    let negated = nodes.push(mul_node(b, minus_one))?;
    let difference = nodes.push(add_node(product, negated))?;
    nodes.output(difference)?;
    nodes.output(product)?;
    Ok(nodes.finish())
}

#[test]
fn has_values_in_order(rt: HostRuntime) -> Result<(), Fail> {
    let list = difference(rt.alloc())?;
    assert_eq!(rt; list.inputs(), 2);
    assert_eq!(rt; list.nodes().len(), 6);
    assert_eq!(rt; *list.outputs(), *[5, 2].as_slice());
    for (a, b, difference) in [(3, 4, 8), (0, 7, 2147483640), (1, 2147483646, 0)] {
        let inputs = [Fp::reduce(a), Fp::reduce(b)];
        let values = list.values(rt.alloc(), &inputs)?;
        assert_eq!(rt; values.last().copied(), Some(Fp::reduce(difference)));
    }
    Ok(())
}
