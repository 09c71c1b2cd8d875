//! Where the nodes of a height are.

ghost use Rattle.std.specs.Prelude.{◌≡◌, ◌<◌, ◌^◌, length};
ghost use Rattle.layer_compile.specs.Levels.{height_of};
ghost use Rattle.layer_compile.specs.Rows.{row, ArePlaces};

use crate::plan::Plan;

impl<'a> Plan<'a> {
    /// Writes the places of a height's nodes, by node.
    pub fn write_places(&self, places: &mut [u32], height: usize, nodes: &[u32])
        requires few { length self.now.list.now.nodes < 2 ^ 32 }
        requires under { height < height_of self.now.list.now }
        requires nodes { nodes.now ≡ row self.now.list.now height }
        requires capacity { length places.old ≡ length self.now.list.now.nodes }
        ensures { ArePlaces self.now.list.now height places.new }
    {
        for (i, k) in nodes.iter().enumerate() {
            places[*k as usize] = i as u32 + 1;
        }
    }
}
