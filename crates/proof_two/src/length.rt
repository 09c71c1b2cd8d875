//! The length of a proof of version 2.

ghost use Rattle.std.specs.Prelude.{◌≡◌, ◌≤◌, ◌*◌, ◌^◌, drop};
ghost use Rattle.proof_two.specs.Spelling.{element_count, length_two};

use circuit_core::Shape;

/// How many bytes a proof of version 2 has, for a circuit of this shape.
pub fn proof_len_two(shape: &Shape) -> u64
    ensures { result ≡ length_two shape.now.ks }
{
    4 + 8 * elements(shape)
}

/// How many coefficients a proof of version 2 has, for a circuit of this shape.
pub fn elements(shape: &Shape) -> u64
    ensures count { result ≡ element_count (drop 1 shape.now.ks) }
    ensures small { result ≤ 1024 * (6 * 2 ^ 32) }
{
    let mut count = 0;
    for layer in 0..shape.layers() - 1 {
        let k = shape.k(layer + 1) as usize;
        count += (4 * k + (k + 1)) as u64;
    }
    count
}
