//! How many copies there are.

ghost use Rattle.std.specs.Prelude.{◌≡◌, ◌≤◌};
ghost use Rattle.batch_core.specs.Copies.{copy_exponent};

/// The least k for which `2^k` copies have one for each of so many instances, of which there are at most 65,536.
pub fn copy_exponent(count: usize) -> usize
    requires { count ≤ 65536 }
    ensures value { result ≡ copy_exponent count }
    ensures most { result ≤ 16 }
{
    for exponent in 0..16 {
        if count <= 1usize << exponent {
            return exponent;
        }
    }
    16
}
