//! What time has passed.

use std::io;
use std::time::Instant;

/// How many microseconds have passed since then.
pub fn microseconds_since(rt: &HostRuntime, begun: Instant) -> io::Result<u64> {
    let time = begun.elapsed(rt)?;
    Ok(u64::try_from(time.as_micros()).unwrap_or(u64::MAX))
}

/// How many nanoseconds have passed since then.
pub fn nanoseconds_since(rt: &HostRuntime, begun: Instant) -> io::Result<u64> {
    let time = begun.elapsed(rt)?;
    Ok(u64::try_from(time.as_nanos()).unwrap_or(u64::MAX))
}
