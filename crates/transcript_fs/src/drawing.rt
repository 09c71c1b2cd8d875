//! Elements from the bytes of a hash.

ghost use Rattle.std.specs.Prelude.{◌≡◌, ◌≤◌, length};
ghost use Rattle.std.specs.Int.{w64, from_le_bytes};
ghost use Rattle.transcript_fs.specs.Transcript.{element_in};

use byteorder::{ByteOrder, LittleEndian};
use field_ext::{Ext, Fp};

/// The element of the numbers in the first 8 bytes and in the next 8.
pub fn leading_element(bytes: &[u8]) -> Ext
    requires { 16 ≤ length bytes.now }
    ensures { result ≡ element_in bytes.now }
{
    let real = Fp::reduce(leading_number(bytes));
    let imaginary = Fp::reduce(leading_number(&bytes[8..]));
    Ext::of(real, imaginary)
}

/// The number in the first 8 bytes, the lowest byte first.
fn leading_number(bytes: &[u8]) -> u64
    requires { 8 ≤ length bytes.now }
    ensures { result ≡ from_le_bytes w64 bytes.now }
{
    LittleEndian::read_u64(bytes)
}
