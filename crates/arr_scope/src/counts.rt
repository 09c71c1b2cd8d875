//! What a run counts.

ghost use Rattle.std.specs.Prelude.{◌≡◌, ◌≢◌, ◌+◌, ◌*◌, IfErr, OnErr};
ghost use Rattle.arr_scope.specs.Counting.{step_at, nodes_at, constant_at, constant_and_nodes, new_constant};
ghost use Rattle.arr_scope.specs.Agrees.{Agrees};
ghost use Rattle.arr_scope.specs.Limits.{most_nodes};
ghost use Rattle.arr_scope.specs.declared.refused.CheckRefused.TheVariants.{Memory};

use crate::constants::Constants;
use crate::refused::{CheckKind, CheckRefused};
use arr_ast::Lang;

const MAX_STEPS: u64 = 1_048_576;

const MAX_NODES_ONE: u64 = 262_144;

const MAX_NODES_TWO: u64 = 1_048_576;

const MODULUS: u32 = 2_147_483_647;

/// What was counted so far, in a language whose limits hold.
#[derive(Drop)]
pub struct Counts {
    pub lang: Lang,
    pub constants: Constants,
    pub steps: u64,
    pub nodes: u64,
    pub outputs: u64,
}

/// How many nodes a program of a language may have.
fn max_nodes(lang: Lang) -> u64
    ensures { result ≡ most_nodes lang }
{
    match lang {
        Lang::One => MAX_NODES_ONE,
        Lang::Two => MAX_NODES_TWO,
    }
}

/// One more step.
pub fn step(counts: &mut Counts, at: usize) -> Result<(), CheckRefused>
    ensures counted { Agrees (λ _. counts.new) result (step_at at counts.old) }
    ensures err { OnErr result (counts.new ≡ counts.old) }
    ensures without_memory { IfErr result (λ refused. refused ≢ Memory) }
{
    if counts.steps >= MAX_STEPS {
        return Err(CheckRefused::Bad {
            at,
            kind: CheckKind::Steps,
        });
    }
    counts.steps += 1;
    Ok(())
}

/// So many nodes more.
pub fn add_nodes(counts: &mut Counts, at: usize, more: u64) -> Result<(), CheckRefused>
    ensures counted { Agrees (λ _. counts.new) result (nodes_at at more counts.old) }
    ensures err { OnErr result (counts.new ≡ counts.old) }
    ensures without_memory { IfErr result (λ refused. refused ≢ Memory) }
{
    add_nodes_each(counts, at, more, 1)
}

/// So many nodes more for each element of a value of this size.
pub fn add_nodes_each(
    counts: &mut Counts,
    at: usize,
    size: u64,
    each: u64,
) -> Result<(), CheckRefused>
    ensures counted { Agrees (λ _. counts.new) result (nodes_at at (size * each) counts.old) }
    ensures err { OnErr result (counts.new ≡ counts.old) }
    ensures without_memory { IfErr result (λ refused. refused ≢ Memory) }
{
    counts.nodes = nodes_after(counts, at, 0, size, each)?;
    Ok(())
}

/// How many nodes there are after some more, and so many for each element of a value of this size.
fn nodes_after(
    counts: &Counts,
    at: usize,
    more: u64,
    size: u64,
    each: u64,
) -> Result<u64, CheckRefused>
    ensures counted { Agrees (λ nodes. record counts.now { nodes = nodes }) result
        (nodes_at at (more + size * each) counts.now) }
    ensures without_memory { IfErr result (λ refused. refused ≢ Memory) }
{
    let nodes = size
        .checked_mul(each)
        .and_then(|nodes| nodes.checked_add(more))
        .and_then(|nodes| nodes.checked_add(counts.nodes));
    match nodes {
        Some(nodes) if nodes <= max_nodes(counts.lang) => Ok(nodes),
        _ => Err(CheckRefused::Bad {
            at,
            kind: CheckKind::Nodes,
        }),
    }
}

/// A constant, which has a node from its first use on. Numbers that are equal modulo the prime are one constant.
pub fn use_constant(counts: &mut Counts, at: usize, value: u32) -> Result<(), CheckRefused>
    ensures counted { Agrees (λ _. counts.new) result (constant_at at value counts.old) }
    ensures err { OnErr result (counts.new ≡ counts.old) }
{
    let number = value % MODULUS;
    if counts.constants.contains(number) {
        return Ok(());
    }
    add_constant(counts, at, number, 0, 0)
}

/// A constant, and then so many nodes more for each element of a value of this size.
pub fn use_constant_each(
    counts: &mut Counts,
    at: usize,
    value: u32,
    size: u64,
    each: u64,
) -> Result<(), CheckRefused>
    ensures counted { Agrees (λ _. counts.new) result
        (constant_and_nodes at value (size * each) counts.old) }
    ensures err { OnErr result (counts.new ≡ counts.old) }
{
    let number = value % MODULUS;
    if counts.constants.contains(number) {
        return add_nodes_each(counts, at, size, each);
    }
    add_constant(counts, at, number, size, each)
}

/// A constant that has no node, and so many nodes more for each element of a value of this size.
fn add_constant(
    counts: &mut Counts,
    at: usize,
    number: u32,
    size: u64,
    each: u64,
) -> Result<(), CheckRefused>
    ensures counted { Agrees (λ _. counts.new) result
        (new_constant at number (1 + size * each) counts.old) }
    ensures err { OnErr result (counts.new ≡ counts.old) }
{
    let nodes = nodes_after(counts, at, 1, size, each)?;
    counts.constants.insert(number)?;
    counts.nodes = nodes;
    Ok(())
}
