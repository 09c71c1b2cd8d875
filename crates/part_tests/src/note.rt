//! Reading a note.

ghost use Rattle.std.specs.Prelude.{◌≡◌, IfOk};
ghost use Rattle.text_parts.specs.Parts.{Gives, at_end};
ghost use Rattle.part_tests.specs.Notes.{SpellsNote, note_at, page_count};

use text_parts::{DueKind, ReadError, Rule, decimal, end, word};

/// How many pages a note may have.
fn page_count() -> Rule
    ensures { result ≡ page_count }
{
    Rule {
        limit: 1000,
        over: DueKind::Length,
        after_zero: b'\n',
        after_other: b'\n',
    }
}

/// Takes a note.
#[tactic(auto, unfolding(crate::specs::Notes::note_at))]
fn note(bytes: &[u8]) -> Result<(u32, &[u8]), ReadError>
    ensures { Gives (λ x. (x.0, x.1.now)) result (note_at bytes.now) }
{
    let rest = word(DueKind::Header, b"note 1\n", bytes)?;
    let rest = word(DueKind::Section, b"pages ", rest)?;
    let (pages, rest) = decimal(page_count(), rest)?;
    let rest = word(DueKind::Section, b"end\n", rest)?;
    Ok((pages, rest))
}

/// Takes a note, after which nothing comes.
#[tactic(auto, using(text_parts::proofs::api::Whole::end_taken, text_parts::proofs::api::Whole::end_fails))]
fn whole(bytes: &[u8]) -> Result<u32, ReadError>
    ensures { Gives (λ pages. pages) result (at_end (note_at bytes.now)) }
{
    let (pages, rest) = note(bytes)?;
    end(rest)?;
    Ok(pages)
}

/// How many pages the note has that all of the bytes spell. It stops at the first byte that isn't due, or at the end.
pub fn read_note(bytes: &[u8]) -> Result<u32, ReadError>
    ensures found { IfOk result (λ pages. SpellsNote bytes.now pages) }
    ensures exact { Gives (λ pages. pages) result (at_end (note_at bytes.now)) }
{
    whole(bytes)
}
