//! Copying as many bytes as go.

ghost use Rattle.std.specs.Prelude.{◌≡◌, ◌<◌, ◌≤◌, ◌++◌, [], length, min, take, drop};

/// Copies at most `most` bytes from the beginning of `from` to that of `buffer`, as many as go, and answers how many.
pub fn copy_prefix(from: &[u8], buffer: &mut [u8], most: usize) -> usize
    requires { 0 < most }
    ensures count { result ≡ min (min (length from.now) (length buffer.old)) most }
    ensures from { result ≤ length from.now }
    ensures capacity { result ≤ length buffer.old }
    ensures copied { from.now ≡ take result buffer.new ++ drop result from.now }
    ensures end { result ≡ 0 → 0 < length buffer.old → drop result from.now ≡ [] }
{
    let count = from.len().min(buffer.len()).min(most);
    buffer[..count].copy_from_slice(&from[..count]);
    count
}
