//! What texts of cases and bytes of proofs take.

use arr_ast::Lang;
use bench_parts::{microseconds_since, numbers};
use case_text::{Case, Form, read_case, write_case};
use circuit_core::Shape;
use field_ext::{Ext, Fp};
use proof_two::{AnyProof, ProofVersion, decode_any};
use proof_wire::{Messages, encode};
use std::alloc::{AllocError, Global};
use std::io;
use std::time::Instant;

/// Bytes in so many microseconds, as megabytes a second.
fn rate(bytes: u64, time: u64) -> u64 {
    bytes / time.max(1)
}

/// So many bytes, each another than the one before.
fn bytes_of(alloc: Global, count: u64) -> Result<Vec<u8>, AllocError> {
    let mut bytes = vec![in alloc; 0u8; count as usize]?;
    for place in 0..bytes.len() {
        bytes[place] = (place % 251) as u8;
    }
    Ok(bytes)
}

/// The case of these parts, where they are no more than a case may have.
fn case_with(program: Vec<u8>, inputs: Vec<Fp>, outputs: Vec<Fp>, proof: Vec<u8>) -> Option<Case> {
    if inputs.len() > 262_144
        || outputs.len() > 262_144
        || program.len() > 65_536
        || proof.len() > 2_000_000
    {
        return None;
    }
    Some(Case::new(Lang::One, program, inputs, Some(outputs), Some(proof)))
}

/// A case whose text has about so many kibibytes, half of them values and half of them the digits of a proof.
fn case_of(alloc: Global, kib: u32) -> io::Result<Option<Case>> {
    let bytes = u64::from(kib.min(4096)) * 512;
    let inputs = numbers(alloc, bytes / 11)?;
    let proof = bytes_of(alloc, bytes / 2)?;
    let program = Vec::from_slice(alloc, b"output 7;")?;
    let outputs = numbers(alloc, 1)?;
    Ok(case_with(program, inputs, outputs, proof))
}

/// How many bytes a case's text has, and how many microseconds reading and writing it took.
#[derive(Clone, Copy)]
struct CaseTimes {
    size: u64,
    reading: u64,
    writing: u64,
}

/// What reading a case took, where writing it took so long. None where it isn't read.
fn time_reading(rt: &HostRuntime, text: &[u8], writing: u64) -> io::Result<Option<CaseTimes>> {
    let begun = Instant::now(rt)?;
    if read_case(rt.alloc(), text, Form::Full).is_err() {
        return Ok(None);
    }
    let reading = microseconds_since(rt, begun)?;
    Ok(Some(CaseTimes {
        size: text.len() as u64,
        reading,
        writing,
    }))
}

/// What writing and reading a case took. None where it isn't read.
fn time_case(rt: &HostRuntime, case: &Case) -> io::Result<Option<CaseTimes>> {
    let begun = Instant::now(rt)?;
    let text = write_case(rt.alloc(), case)?;
    let writing = microseconds_since(rt, begun)?;
    time_reading(rt, &text, writing)
}

/// The least of twenty such times each.
fn least_case(rt: &HostRuntime, case: &Case) -> io::Result<Option<CaseTimes>> {
    let mut least = CaseTimes {
        size: 0,
        reading: u64::MAX,
        writing: u64::MAX,
    };
    for _ in 0..20u32 {
        let Some(times) = time_case(rt, case)? else {
            return Ok(None);
        };
        least = CaseTimes {
            size: times.size,
            reading: least.reading.min(times.reading),
            writing: least.writing.min(times.writing),
        };
    }
    Ok(Some(least))
}

/// Prints how long reading and writing this case took, the best of twenty.
fn print_case(rt: &HostRuntime, case: &Case) -> io::Result<()> {
    let Some(times) = least_case(rt, case)? else {
        return println!(rt; "case: not read");
    };
    println!(rt;
        "case: {} bytes, read in {} us ({} MB/s), written in {} us ({} MB/s)",
        times.size,
        times.reading,
        rate(times.size, times.reading),
        times.writing,
        rate(times.size, times.writing)
    )
}

/// Prints how long reading and writing a case of about so many kibibytes took.
pub fn case(rt: &HostRuntime, kib: u32) -> io::Result<()> {
    match case_of(rt.alloc(), kib)? {
        Some(case) => print_case(rt, &case),
        None => Ok(()),
    }
}

/// The greatest shape: 1,024 layers of `2^20` positions above the input.
fn greatest_shape(alloc: Global) -> io::Result<Shape> {
    Ok(Shape::of(Vec::from_slice(alloc, &[20u32; 1025])?))
}

/// Bytes that are a proof of the greatest shape: 1,024 layers of 40 messages of three elements, in version 2 of two, and of 21
/// elements.
fn proof_bytes(alloc: Global, version: ProofVersion) -> io::Result<Vec<u8>> {
    let (magic, elements) = match version {
        ProofVersion::One => (b"GKR1", 1024 * 141u64),
        ProofVersion::Two => (b"GKR2", 1024 * 101u64),
    };
    let mut bytes = Vec::from_slice(alloc, magic)?;
    for number in 0..elements {
        let re = Fp::reduce(number.wrapping_mul(2_654_435_761));
        let im = Fp::reduce(number.wrapping_mul(40_503));
        bytes.extend_from_slice(&Ext::of(re, im).to_bytes())?;
    }
    Ok(bytes)
}

/// How many microseconds reading so many times this proof took. None where it isn't read.
fn time_decoding(
    rt: &HostRuntime,
    bytes: &[u8],
    shape: &Shape,
    times: u32,
) -> io::Result<Option<u64>> {
    let begun = Instant::now(rt)?;
    for _ in 0..times {
        if decode_any(rt.alloc(), bytes, shape).is_err() {
            return Ok(None);
        }
    }
    Ok(Some(microseconds_since(rt, begun)?))
}

/// How many microseconds writing so many times these messages took.
fn time_encoding(rt: &HostRuntime, messages: &Messages, times: u32) -> io::Result<u64> {
    let begun = Instant::now(rt)?;
    for _ in 0..times {
        encode(rt.alloc(), messages)?;
    }
    microseconds_since(rt, begun)
}

/// How many microseconds reading proofs of both versions, and writing those of the first, took.
#[derive(Clone, Copy)]
struct ProofTimes {
    reading: u64,
    shorter: u64,
    writing: u64,
}

/// The times of a proof of each version and of the messages of the first. None where one isn't read.
fn time_proofs(
    rt: &HostRuntime,
    one: &[u8],
    two: &[u8],
    shape: &Shape,
    messages: &Messages,
    times: u32,
) -> io::Result<Option<ProofTimes>> {
    let Some(reading) = time_decoding(rt, one, shape, times)? else {
        return Ok(None);
    };
    let Some(shorter) = time_decoding(rt, two, shape, times)? else {
        return Ok(None);
    };
    let writing = time_encoding(rt, messages, times)?;
    Ok(Some(ProofTimes {
        reading,
        shorter,
        writing,
    }))
}

/// The least of twenty such times each.
fn least_proofs(
    rt: &HostRuntime,
    one: &[u8],
    two: &[u8],
    shape: &Shape,
    messages: &Messages,
    times: u32,
) -> io::Result<Option<ProofTimes>> {
    let mut least = ProofTimes {
        reading: u64::MAX,
        shorter: u64::MAX,
        writing: u64::MAX,
    };
    for _ in 0..20u32 {
        let Some(found) = time_proofs(rt, one, two, shape, messages, times)? else {
            return Ok(None);
        };
        least = ProofTimes {
            reading: least.reading.min(found.reading),
            shorter: least.shorter.min(found.shorter),
            writing: least.writing.min(found.writing),
        };
    }
    Ok(Some(least))
}

/// Prints these times of so many proofs of these sizes.
fn print_proofs(
    rt: &HostRuntime,
    least: ProofTimes,
    one: usize,
    two: usize,
    times: u32,
) -> io::Result<()> {
    let size = (one as u64).saturating_mul(u64::from(times));
    println!(rt;
        "proof: {} bytes, read in {} us ({} MB/s), written in {} us ({} MB/s)",
        size,
        least.reading,
        rate(size, least.reading),
        least.writing,
        rate(size, least.writing)
    )?;
    println!(rt;
        "proof: in version 2 {} bytes, read in {} us: {} hundredths of version 1",
        (two as u64).saturating_mul(u64::from(times)),
        least.shorter,
        least.shorter.saturating_mul(100) / least.reading.max(1)
    )
}

/// Prints how long these proofs of both versions, and the messages of the first, took.
fn print_messages(
    rt: &HostRuntime,
    one: &[u8],
    two: &[u8],
    shape: &Shape,
    messages: &Messages,
    times: u32,
) -> io::Result<()> {
    match least_proofs(rt, one, two, shape, messages, times)? {
        Some(least) => print_proofs(rt, least, one.len(), two.len(), times),
        None => Ok(()),
    }
}

/// Prints how long these proofs of both versions took.
fn print_versions(
    rt: &HostRuntime,
    one: &[u8],
    two: &[u8],
    shape: &Shape,
    times: u32,
) -> io::Result<()> {
    match decode_any(rt.alloc(), one, shape) {
        Ok(AnyProof::One(messages)) => print_messages(rt, one, two, shape, &messages, times),
        _ => println!(rt; "proof: not read"),
    }
}

/// Prints how long reading and writing so many of the longest proofs took, and reading as many in version 2, each the best of
/// twenty.
pub fn proof(rt: &HostRuntime, times: u32) -> io::Result<()> {
    let shape = greatest_shape(rt.alloc())?;
    let one = proof_bytes(rt.alloc(), ProofVersion::One)?;
    let two = proof_bytes(rt.alloc(), ProofVersion::Two)?;
    print_versions(rt, &one, &two, &shape, times)
}
