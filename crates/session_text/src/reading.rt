//! Reading a session.

ghost use Rattle.std.specs.Prelude.{◌≡◌, IfOk, Ok, length};
ghost use Rattle.text_parts.specs.Parts.{Gives};
ghost use Rattle.case_text.specs.Reading.{Answers};
ghost use Rattle.session_text.specs.Sessions.{SessionContent, SpellsSession, session_at, session_in, session_reading, words_at};

use crate::session::SessionCase;
use case_text::{CaseRefused, Form, case_of, counted, refusal_of};
use field_ext::Fp;
use std::alloc::Global;
use text_parts::{DueKind, ReadError, end, word};

/// Takes the line of the words.
#[tactic(auto, unfolding(crate::specs::Sessions::words_at))]
fn words(alloc: Global, bytes: &[u8]) -> Result<(Vec<Fp>, &[u8]), ReadError>
    ensures { Gives (λ x. (x.0.items, x.1.now)) result (words_at bytes.now) }
{
    let rest = word(DueKind::Section, b"words ", bytes)?;
    counted(alloc, rest)
}

/// Takes a case, its words, and the last line.
#[tactic(auto, unfolding(crate::specs::Sessions::session_at))]
fn session(alloc: Global, bytes: &[u8]) -> Result<(SessionCase, &[u8]), ReadError>
    ensures { Gives (λ x. (x.0, x.1.now)) result (session_at bytes.now) }
{
    let (case, rest) = case_of(alloc, Form::Plain, bytes)?;
    let (words, rest) = words(alloc, rest)?;
    let rest = word(DueKind::Section, b"done\n", rest)?;
    Ok((SessionCase::new(case, words), rest))
}

/// Takes a session, after which nothing comes.
#[tactic(auto, using(text_parts::proofs::api::Whole::end_taken, text_parts::proofs::api::Whole::end_fails))]
fn whole(alloc: Global, bytes: &[u8]) -> Result<SessionCase, ReadError>
    ensures { Gives (λ s. s) result (session_in bytes.now) }
{
    let (session, rest) = session(alloc, bytes)?;
    end(rest)?;
    Ok(session)
}

/// The same, a refusal by its place.
fn placed(alloc: Global, bytes: &[u8]) -> Result<SessionCase, CaseRefused>
    ensures { Answers result (session_reading bytes.now) }
{
    match whole(alloc, bytes) {
        Ok(session) => Ok(session),
        Err(error) => Err(refusal_of(error, bytes)),
    }
}

/// The case and the words that all of the bytes spell, read in one pass.
///
/// `Bad` comes where they spell none, with the place of the first byte that isn't taken and what was due there.
/// `Memory` comes where memory for its lists runs out.
pub fn read_session(alloc: Global, bytes: &[u8]) -> Result<SessionCase, CaseRefused>
    // What is read is spelled so.
    ensures found { IfOk result (λ session. SpellsSession bytes.now session) }
    // What is spelled so is read, unless memory runs out.
    ensures only { (session : SessionContent) → SpellsSession bytes.now session
        → Answers result (Ok session) }
    // Which refusal it is.
    ensures exact { Answers result (session_reading bytes.now) }
{
    placed(alloc, bytes)
}
