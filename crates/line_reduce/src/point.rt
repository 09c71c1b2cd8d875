//! Points of a line.

ghost use Rattle.std.specs.Prelude.{◌≡◌, length};
ghost use Rattle.field_ext.specs.Field.{k_ops};
ghost use Rattle.gkr_layers.specs.Sumcheck.{point_between};

use field_ext::Ext;

/// Writes the point at `t` of the line from `b`, at 0, to `c`, at 1: `b + t (c - b)`.
pub fn point_at(b: &[Ext], c: &[Ext], t: Ext, point: &mut [Ext])
    requires end { length c.now ≡ length b.now }
    requires capacity { length point.old ≡ length b.now }
    ensures { point.new ≡ point_between k_ops b.now c.now t }
{
    for j in 0..b.len() {
        point[j] = b[j] + t * (c[j] - b[j]);
    }
}
