//! One case through the commands.

use crate::programs::{case_text, make_program, spoil};
use crate::runs::{Ran, run};
use case_prove::eval_case;
use case_text::{Case, CaseRefused, Form, read_case, write_case};
use gkr_cmd::Status;
use rand_core::SeedableRng;
use rand_xoshiro::Xoshiro256PlusPlus;
use std::alloc::{AllocError, Global};
use std::marker::Sync;
use std::sync::Wait;
use std::thread::Threads;

/// How a case went.
#[derive(Clone, Copy, Debug)]
pub enum Outcome {
    /// It was refused.
    Refused,
    /// It was proved and accepted; with one byte changed it was refused.
    SpoiledRefused,
    /// The same, rejected by an equation.
    SpoiledRejected,
    /// The same, accepted, and the outputs are the program's meaning.
    Harmless,
    /// This doesn't hold, and must.
    Broken(&'static str),
}

/// The last line of a case.
const END: &[u8] = b"end\n";

/// Whether the text is the case's, up to its last line, and then the outputs' line.
fn goes_on(text: &[u8], case: &[u8], outputs: &[u8]) -> bool {
    let Some(front) = case.strip_suffix(END) else {
        return false;
    };
    let Some(rest) = text.strip_prefix(front) else {
        return false;
    };
    rest.starts_with(outputs)
}

/// Whether a text is one of a case with outputs and a proof, and is written again as it is.
fn is_read_and_written(alloc: Global, text: &[u8]) -> Result<bool, AllocError> {
    match read_case(alloc, text, Form::Full) {
        Ok(case) => Ok(write_case(alloc, &case)?.as_slice() == text),
        Err(CaseRefused::Bad(_)) => Ok(false),
        Err(CaseRefused::Memory) => Err(AllocError),
    }
}

/// Whether a text is one of a case whose outputs are the program's meaning on its inputs.
fn has_meaning(alloc: Global, text: &[u8]) -> Result<bool, AllocError> {
    let case = match read_case(alloc, text, Form::Full) {
        Ok(case) => case,
        Err(CaseRefused::Bad(_)) => return Ok(false),
        Err(CaseRefused::Memory) => return Err(AllocError),
    };
    match (eval_case(alloc, &case), case.outputs()) {
        (Ok(outputs), Some(claimed)) => Ok(outputs.as_slice() == claimed),
        _ => Ok(false),
    }
}

/// What `verify` says of a proof with one byte changed.
fn spoiled<R: Threads + Wait + Sync>(
    rt: &R,
    alloc: Global,
    text: &[u8],
) -> Result<Outcome, AllocError> {
    let verdict = run(rt, alloc, &["verify"], text)?;
    match verdict.status {
        Status::Done => {
            if has_meaning(alloc, text)? {
                Ok(Outcome::Harmless)
            } else {
                Ok(Outcome::Broken("false outputs are accepted"))
            }
        }
        Status::Rejected => Ok(Outcome::SpoiledRejected),
        Status::BadCase | Status::BadProgram | Status::BadCount | Status::BadProof => {
            Ok(Outcome::SpoiledRefused)
        }
        _ => Ok(Outcome::Broken("a spoiled case has a status that verify hasn't")),
    }
}

/// What must hold where `eval` and `prove` refuse a case. A circuit may be too large where a program isn't.
fn refused(evaluated: &Ran, proved: &Ran) -> Outcome {
    if evaluated.status == Status::Done {
        return if proved.status == Status::BadProgram {
            Outcome::Refused
        } else {
            Outcome::Broken("prove refuses what eval evaluates")
        };
    }
    if evaluated.status == proved.status
        && evaluated.written.as_slice() == proved.written.as_slice()
    {
        Outcome::Refused
    } else {
        Outcome::Broken("eval and prove refuse in other words")
    }
}

/// What must hold of a case that was proved, but for the verdict on a spoiled proof: None where it does.
fn proved_wrong<R: Threads + Wait + Sync>(
    rt: &R,
    alloc: Global,
    case: &[u8],
    evaluated: &Ran,
    proved: &Ran,
) -> Result<Option<&'static str>, AllocError> {
    if evaluated.status != Status::Done {
        return Ok(Some("prove proves what eval refuses"));
    }
    if !goes_on(&proved.written, case, &evaluated.written) {
        return Ok(Some("prove wrote another case or other outputs"));
    }
    if !is_read_and_written(alloc, &proved.written)? {
        return Ok(Some("a proved case is read or written otherwise"));
    }
    let by_two = run(rt, alloc, &["prove", "--workers", "2"], case)?;
    if by_two.written.as_slice() != proved.written.as_slice() {
        return Ok(Some("two workers write another proof"));
    }
    if !is_accepted(rt, alloc, &proved.written)? {
        return Ok(Some("what was proved isn't accepted"));
    }
    let by_pairs = run(rt, alloc, &["prove", "--proof", "pair"], case)?;
    if !goes_on(&by_pairs.written, case, &evaluated.written) {
        return Ok(Some("by pairs prove wrote another case or other outputs"));
    }
    if !is_accepted(rt, alloc, &by_pairs.written)? {
        return Ok(Some("what was proved by pairs isn't accepted"));
    }
    Ok(None)
}

/// Whether `verify` accepts a text.
fn is_accepted<R: Threads + Wait + Sync>(
    rt: &R,
    alloc: Global,
    text: &[u8],
) -> Result<bool, AllocError> {
    let verdict = run(rt, alloc, &["verify"], text)?;
    Ok(verdict.status == Status::Done && verdict.written.as_slice() == b"accepted\n".as_slice())
}

/// What the commands say of a proved case of which a byte is changed.
fn spoilt<R: Threads + Wait + Sync>(
    rt: &R,
    alloc: Global,
    rng: &mut Xoshiro256PlusPlus,
    proved: &[u8],
) -> Result<Outcome, AllocError> {
    let mut text = Vec::from_slice(alloc, proved)?;
    spoil(rng, &mut text);
    spoiled(rt, alloc, &text)
}

/// What must hold of a case that `prove` ended so, and then of it with a byte changed.
fn judged<R: Threads + Wait + Sync>(
    rt: &R,
    alloc: Global,
    rng: &mut Xoshiro256PlusPlus,
    case: &[u8],
    evaluated: &Ran,
    proved: &Ran,
) -> Result<Outcome, AllocError> {
    if proved.status != Status::Done {
        return Ok(refused(evaluated, proved));
    }
    match proved_wrong(rt, alloc, case, evaluated, proved)? {
        Some(law) => Ok(Outcome::Broken(law)),
        None => spoilt(rt, alloc, rng, &proved.written),
    }
}

/// Puts a case through the commands.
fn tried<R: Threads + Wait + Sync>(
    rt: &R,
    alloc: Global,
    rng: &mut Xoshiro256PlusPlus,
    case: &[u8],
) -> Result<Outcome, AllocError> {
    let evaluated = run(rt, alloc, &["eval"], case)?;
    let proved = run(rt, alloc, &["prove"], case)?;
    judged(rt, alloc, rng, case, &evaluated, &proved)
}

/// Makes a case from a number, and puts it through the commands.
pub fn trial<R: Threads + Wait + Sync>(
    rt: &R,
    alloc: Global,
    number: u64,
) -> Result<Outcome, AllocError> {
    let mut rng = Xoshiro256PlusPlus::seed_from_u64(number);
    let made = make_program(&mut rng, alloc)?;
    let case = case_text(&mut rng, alloc, &made)?;
    tried(rt, alloc, &mut rng, &case)
}
