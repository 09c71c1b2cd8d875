//! The wiring polynomials of copies at a point.

ghost use Rattle.std.specs.Prelude.{◌≡◌, ◌<◌, ◌+◌, [], length, slice_index_or};
ghost use Rattle.field_ext.specs.Field.{k_ops};
ghost use Rattle.circuit_core.specs.Parts.{height};
ghost use Rattle.circuit_core.specs.Sound.{exponent_at};
ghost use Rattle.wiring_poly.specs.Wiring.{wiring_add, wiring_mul};
ghost use Rattle.run_wiring.specs.CircuitRuns.{IsWiringOf};
ghost use Rattle.batch_core.specs.Copies.{copies};
ghost use Rattle.batch_core.specs.CopiedWiring.{same_copy, same_bit};

use circuit_core::Circuit;
use field_ext::Ext;
use run_wiring::LayerWiring;

/// The multilinear extension of "all three are one copy" at three points of as many coordinates.
pub fn same_copy(first: &[Ext], second: &[Ext], third: &[Ext]) -> Ext
    requires second { length second.now ≡ length first.now }
    requires third { length third.now ≡ length first.now }
    ensures { result ≡ same_copy k_ops first.now second.now third.now }
{
    let mut product = Ext::one();
    for i in 0..first.len() {
        product = product * same_bit(first[i], second[i], third[i]);
    }
    product
}

/// The same at one coordinate of each point.
fn same_bit(first: Ext, second: Ext, third: Ext) -> Ext
    ensures { result ≡ same_bit k_ops first second third }
{
    let ones = first * (second * third);
    let zeros = (Ext::one() - first) * ((Ext::one() - second) * (Ext::one() - third));
    ones + zeros
}

/// The wiring polynomials of a layer of `2^exponent` copies of a circuit, that of the add gates and that of the multiply gates. The
/// wiring is that of the layer in one copy. The points are those of `LayerWiring::at` with as many coordinates of a copy as
/// `exponent` says behind them. No memory is taken, and no gate of another copy is gone over.
pub fn wiring_of_copies(
    wiring: &LayerWiring,
    circuit: &Circuit,
    layer: usize,
    exponent: usize,
    z: &[Ext],
    b: &[Ext],
    c: &[Ext],
) -> (Ext, Ext)
    requires layer { layer < height circuit.now.parts }
    requires of { IsWiringOf circuit.now.parts layer wiring.now }
    requires position { length z.now ≡ exponent_at circuit.now.parts layer + exponent }
    requires left { length b.now ≡ exponent_at circuit.now.parts (layer + 1) + exponent }
    requires right { length c.now ≡ exponent_at circuit.now.parts (layer + 1) + exponent }
    ensures add { result.0 ≡ wiring_add k_ops
        (copies exponent (exponent_at circuit.now.parts (layer + 1))
        (slice_index_or circuit.now.parts.layers layer [])) z.now b.now c.now }
    ensures mul { result.1 ≡ wiring_mul k_ops
        (copies exponent (exponent_at circuit.now.parts (layer + 1))
        (slice_index_or circuit.now.parts.layers layer [])) z.now b.now c.now }
{
    let (position, copy) = z.split_at(z.len() - exponent);
    let (left, left_copy) = b.split_at(b.len() - exponent);
    let (right, right_copy) = c.split_at(c.len() - exponent);
    let (add, mul) = wiring.at(circuit, layer, position, left, right);
    let same = same_copy(copy, left_copy, right_copy);
    (same * add, same * mul)
}
