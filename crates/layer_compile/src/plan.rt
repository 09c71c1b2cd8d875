//! What the layout of a list of nodes is read from.

ghost use Rattle.std.specs.Prelude.{◌≡◌, ◌<◌, ◌≤◌, ◌+◌, length, vec_len};
ghost use Rattle.layer_compile.specs.Levels.{level, levels, height_of, is_used_above, AreUses};
ghost use Rattle.layer_compile.specs.Next.{IsNext, AreChains, has_level};

use crate::chains::Chains;
use node_core::NodeList;

/// A list of nodes with the level of each, the height up to which each is used, the nodes of each level, and the height
/// of the outputs.
#[derive(Drop)]
pub struct Plan<'a> {
    pub list: &'a NodeList,
    pub node_levels: Vec<usize>,
    pub node_uses: Vec<usize>,
    pub by_level: Chains,
    pub top: usize,
    ghost levelled: { node_levels.items ≡ levels list.now },
    ghost used: { AreUses list.now node_uses.items },
    ghost chained: { AreChains (levels list.now) by_level.first.items by_level.next.items },
    ghost many_levels: { vec_len node_levels ≡ length list.now.nodes },
    ghost many_uses: { vec_len node_uses ≡ length list.now.nodes },
    ghost many_firsts: { vec_len by_level.first ≡ length list.now.nodes + 1 },
    ghost many_nexts: { vec_len by_level.next ≡ length list.now.nodes },
    ghost topmost: { top ≡ height_of list.now },
}

impl<'a> Plan<'a> {
    pub fn level(&self, k: usize) -> usize
        requires { k < length self.now.list.now.nodes }
        ensures { result ≡ level self.now.list.now k }
    {
        self.node_levels[k]
    }

    /// Whether an output or a needed node of a level above a height uses a node.
    pub fn is_used_above(&self, height: usize, k: usize) -> bool
        requires inside { k < length self.now.list.now.nodes }
        requires below { height < height_of self.now.list.now }
        ensures { result ≡ is_used_above self.now.list.now height k }
    {
        height < self.node_uses[k]
    }

    /// The first node of a level, or how many nodes there are.
    pub fn first_of_level(&self, level: usize) -> u32
        requires { level ≤ length self.now.list.now.nodes }
        ensures { IsNext (has_level (levels self.now.list.now) level)
            (length self.now.list.now.nodes) 0 result }
    {
        self.by_level.first[level]
    }

    /// The next node of a node's level, or how many nodes there are.
    pub fn next_of_level(&self, k: u32) -> u32
        requires { k < length self.now.list.now.nodes }
        ensures { IsNext (has_level (levels self.now.list.now) (level self.now.list.now k))
            (length self.now.list.now.nodes) (k + 1) result }
    {
        self.by_level.next[k as usize]
    }
}
