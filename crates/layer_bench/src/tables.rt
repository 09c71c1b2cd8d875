//! What binding a coordinate of a table takes.

use bench_parts::{Ratio, nanoseconds_since};
use field_ext::{Ext, Fp};
use mle_table::Table;
use std::alloc::{AllocError, Global};
use std::io;
use std::time::Instant;

/// A table of `2^k` elements of K, where there is one of that size.
fn table(alloc: Global, k: u32) -> Result<Option<Table>, AllocError> {
    let mut values = vec![in alloc; Ext::zero(); 1usize << k.min(24)]?;
    for place in 0..values.len() {
        let re = Fp::reduce((place as u64).wrapping_mul(2_654_435_761));
        let im = Fp::reduce((place as u64).wrapping_mul(40_503));
        values[place] = Ext::of(re, im);
    }
    Ok(Table::of_values(values).ok())
}

/// How many nanoseconds binding a coordinate of a table took, which has one.
fn time_bind(rt: &HostRuntime, table: &mut Table) -> io::Result<u64> {
    if table.k() == 0 {
        return Ok(u64::MAX);
    }
    let r = Ext::of(Fp::reduce(123_456_789), Fp::reduce(987_654_321));
    let begun = Instant::now(rt)?;
    table.fold(r);
    nanoseconds_since(rt, begun)
}

/// How many nanoseconds binding one coordinate of a table of `2^k` values took, where there is one.
fn time_fold(rt: &HostRuntime, k: u32) -> io::Result<u64> {
    match table(rt.alloc(), k)? {
        Some(mut table) => time_bind(rt, &mut table),
        None => Ok(u64::MAX),
    }
}

/// Prints how long binding one coordinate of a table of `2^k` values took, the best of five.
pub fn fold(rt: &HostRuntime, k: u32) -> io::Result<()> {
    let mut taken = u64::MAX;
    for _ in 0..5u32 {
        taken = taken.min(time_fold(rt, k)?);
    }
    let k = k.min(24);
    println!(rt;
        "fold: 2^{} values in {} us, {} ns a value",
        k,
        taken / 1000,
        Ratio::of(taken, 1u64 << k)
    )
}
