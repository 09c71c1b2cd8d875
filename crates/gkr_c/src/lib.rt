//! The commands on a case as a static library, for programs that embed them.
//!
//! Each export runs one command on the bytes of a case, as the program `gkr` runs it on its
//! standard input, on the calling thread alone, and answers the number that the process ends with.
//! The reply is put at the beginning of `reply`, room of the caller, and its length in bytes into
//! `needed`. Where it is longer than the room, the room stays as it was, and the caller calls again
//! with more: 8,388,608 bytes hold every reply of `prove` and `convert` that is a case. The library
//! keeps nothing between two calls, so any number of threads may call it at once.
//!
//! For C `alloc` takes no argument, a slice is a pointer that isn't null and a length in bytes, and
//! a `&mut usize` a pointer. No export has a condition on its values. Numbers of kinds and versions
//! are those of `choices`; what a number that is answered says is in `docs/commands.md`, and 7
//! never comes, since memory doesn't fail to be read. 8 comes where no memory was found for the
//! bytes of the reply; then what is handed out is a prefix of it, which may be empty.
//!
//! ```text
//! size_t needed;
//! uint8_t number = gkr_c_verify(proved, proved_len, reply, reply_len, &needed);   // 0: accepted
//! ```
#![tactic(auto)]

ghost use Rattle.gkr_c.specs.Handed.{HandsOut, HandsOutWords};
ghost use Rattle.gkr_c.specs.Split.{words_in};
ghost use Rattle.gkr_words.specs.declared.words.CaseCommand.TheVariants.{Eval, Circuit, Prove, Verify, Audit, Convert};
ghost use Rattle.gkr_c.specs.Choices.{kind_of, version_of, HandsOutChosen};
ghost use Rattle.std.specs.Prelude.{option_map};

mod choices;
mod handed;
mod run_words;
mod slice_source;
mod vec_sink;
mod words;

use choices::{kind_of, version_of};
use gkr_words::CaseCommand;
use handed::{hand_out, refuse};
use run_words::run_words;
use std::alloc::Global;

/// `gkr eval`: the outputs of a case, a line for each.
#[unsafe(no_mangle)]
pub extern "C" fn gkr_c_eval(
    alloc: Global,
    input: &[u8],
    reply: &mut [u8],
    needed: &mut usize,
) -> u8
    ensures { HandsOut Eval input.now reply.old reply.new needed.new result }
{
    hand_out(alloc, CaseCommand::Eval, input, reply, needed)
}

/// `gkr circuit`: the sizes of the layered circuit of a case's program.
#[unsafe(no_mangle)]
pub extern "C" fn gkr_c_circuit(
    alloc: Global,
    input: &[u8],
    reply: &mut [u8],
    needed: &mut usize,
) -> u8
    ensures { HandsOut Circuit input.now reply.old reply.new needed.new result }
{
    hand_out(alloc, CaseCommand::Circuit, input, reply, needed)
}

/// `gkr prove`: the case with its outputs and the proof of them, by lines in version 1 or 2 for the
/// kinds 1 and 2, and by pairs for the kind 3. Another kind is answered with 2, and nothing is
/// handed out.
#[unsafe(no_mangle)]
pub extern "C" fn gkr_c_prove(
    alloc: Global,
    kind: u32,
    input: &[u8],
    reply: &mut [u8],
    needed: &mut usize,
) -> u8
    ensures { HandsOutChosen (option_map (λ k. Prove 1 k) (kind_of kind)) input.now reply.old
        reply.new needed.new result }
{
    match kind_of(kind) {
        Some(kind) => {
            hand_out(
                alloc,
                CaseCommand::Prove { workers: 1, kind },
                input,
                reply,
                needed,
            )
        }
        None => refuse(needed),
    }
}

/// `gkr verify`: the verdict on the proof of a case.
#[unsafe(no_mangle)]
pub extern "C" fn gkr_c_verify(
    alloc: Global,
    input: &[u8],
    reply: &mut [u8],
    needed: &mut usize,
) -> u8
    ensures { HandsOut Verify input.now reply.old reply.new needed.new result }
{
    hand_out(alloc, CaseCommand::Verify, input, reply, needed)
}

/// `gkr audit`: what an audit finds in the proof of a case.
#[unsafe(no_mangle)]
pub extern "C" fn gkr_c_audit(
    alloc: Global,
    input: &[u8],
    reply: &mut [u8],
    needed: &mut usize,
) -> u8
    ensures { HandsOut Audit input.now reply.old reply.new needed.new result }
{
    hand_out(alloc, CaseCommand::Audit, input, reply, needed)
}

/// `gkr convert`: the case with its proof in version 1 or 2. Another version is answered with 2,
/// and nothing is handed out.
#[unsafe(no_mangle)]
pub extern "C" fn gkr_c_convert(
    alloc: Global,
    version: u32,
    input: &[u8],
    reply: &mut [u8],
    needed: &mut usize,
) -> u8
    ensures { HandsOutChosen (option_map Convert (version_of version)) input.now reply.old reply.new
        needed.new result }
{
    match version_of(version) {
        Some(version) => hand_out(alloc, CaseCommand::Convert(version), input, reply, needed),
        None => refuse(needed),
    }
}

/// `gkr` with the words that stand in `words` with a byte 0 between two of them, as `prove`, 0,
/// `--proof`, 0, `pair`. The number is 11 where they are no text, and 12 where they name a command
/// that isn't on a case; then nothing is handed out.
#[unsafe(no_mangle)]
pub extern "C" fn gkr_c_run(
    alloc: Global,
    words: &[u8],
    input: &[u8],
    reply: &mut [u8],
    needed: &mut usize,
) -> u8
    ensures { HandsOutWords (words_in words.now) input.now reply.old reply.new needed.new result }
{
    run_words(alloc, words, input, reply, needed)
}
