//! Sizes of layers.

ghost use Rattle.std.specs.Prelude.{◌≡◌};
ghost use Rattle.layer_compile.specs.Circuits.{size_for};

use circuit_core::GREATEST_EXPONENT;

/// The first power of two from 2 on that is at least this many positions, where a layer can hold them.
pub fn size_for(positions: usize) -> usize
    ensures { result ≡ size_for positions }
{
    for j in 0..GREATEST_EXPONENT {
        if positions <= 1 << (j + 1) {
            return 1 << (j + 1);
        }
    }
    1 << GREATEST_EXPONENT
}
