//! What is reported of a proof: the verdict, and what an audit finds.

ghost use Rattle.std.specs.Prelude.{◌≡◌, ◌++◌, OnOk};
ghost use Rattle.case_text.specs.Replies.{audit_text, challenge_text, failed_layer_text, failed_round_text, failed_text, meaning_text, message_text, sides_text, verdict_text};

use crate::case::writing::put_number;
use crate::reply::put_pair;
use field_ext::Ext;
use std::alloc::AllocError;

/// The line on a proof: that it is accepted, or the first equation that fails, with its two sides. Layers count from 0,
/// rounds from 1.
#[derive(Clone, Copy, Debug, PartialEq, Eq)]
pub enum VerdictLine {
    /// The proof is accepted.
    Accepted,
    /// A round's message at 0 plus that at 1 isn't the claim before it.
    Sum {
        layer: usize,
        round: usize,
        had: Ext,
        claim: Ext,
    },
    /// The claim after a layer's rounds isn't what the wiring makes of its last message.
    End {
        layer: usize,
        had: Ext,
        want: Ext,
    },
    /// The last claim isn't the value of the inputs' extension.
    Input {
        had: Ext,
        want: Ext,
    },
}

/// Which message of a proof: that of a round of a layer, or a layer's last, on its line. Layers count from 0, rounds from 1.
#[derive(Clone, Copy, Debug, PartialEq, Eq)]
pub enum MessagePlace {
    Round { layer: u32, round: u32 },
    Line(u32),
}

/// The four lines of an audit.
#[derive(Clone, Copy, Debug, PartialEq, Eq)]
pub struct AuditLines {
    /// The line on the proof.
    pub verdict: VerdictLine,
    /// Whether the outputs are those that the program means.
    pub same: bool,
    /// The first message that isn't the true one.
    pub message: Option<MessagePlace>,
    /// The first exceptional challenge, by its number, from 0, and its value.
    pub challenge: Option<(u32, Ext)>,
}

/// The two sides of an equation, each by its real and its imaginary part.
#[tactic(auto, unfolding(crate::specs::Replies::sides_text))]
fn put_sides(out: &mut Vec<u8>, had: Ext, want: Ext) -> Result<(), AllocError>
    ensures { OnOk result (out.new.items ≡ out.old.items ++ sides_text had want) }
{
    put_number(out, u64::from(had.re().value()), b',')?;
    put_number(out, u64::from(had.im().value()), b' ')?;
    put_number(out, u64::from(want.re().value()), b',')?;
    put_number(out, u64::from(want.im().value()), b'\n')
}

/// A word and the two sides of an equation.
#[tactic(auto, unfolding(crate::specs::Replies::failed_text))]
fn put_failed(out: &mut Vec<u8>, word: &[u8], had: Ext, want: Ext) -> Result<(), AllocError>
    ensures { OnOk result (out.new.items ≡ out.old.items ++ failed_text word.now had want) }
{
    out.extend_from_slice(word)?;
    put_sides(out, had, want)
}

/// A word, a layer, and the two sides of an equation.
#[tactic(auto, unfolding(crate::specs::Replies::failed_layer_text))]
fn put_failed_layer(
    out: &mut Vec<u8>,
    word: &[u8],
    layer: u64,
    had: Ext,
    want: Ext,
) -> Result<(), AllocError>
    ensures { OnOk result (out.new.items ≡ out.old.items ++ failed_layer_text word.now layer had
        want) }
{
    out.extend_from_slice(word)?;
    put_number(out, layer, b' ')?;
    put_sides(out, had, want)
}

/// A word, a layer, a round, and the two sides of an equation.
#[tactic(auto, unfolding(crate::specs::Replies::failed_round_text))]
fn put_failed_round(
    out: &mut Vec<u8>,
    word: &[u8],
    layer: u64,
    round: u64,
    had: Ext,
    want: Ext,
) -> Result<(), AllocError>
    ensures { OnOk result (out.new.items ≡ out.old.items ++ failed_round_text word.now layer round
        had want) }
{
    out.extend_from_slice(word)?;
    put_number(out, layer, b' ')?;
    put_number(out, round, b' ')?;
    put_sides(out, had, want)
}

/// The line on a proof.
pub(crate) fn put_verdict(out: &mut Vec<u8>, verdict: VerdictLine) -> Result<(), AllocError>
    ensures { OnOk result (out.new.items ≡ out.old.items ++ verdict_text verdict) }
{
    match verdict {
        VerdictLine::Accepted => {
            out.extend_from_slice(b"accepted\n")?;
            Ok(())
        }
        VerdictLine::Sum {
            layer,
            round,
            had,
            claim,
        } => put_failed_round(
            out,
            b"rejected sum ",
            layer as u64,
            round as u64,
            had,
            claim,
        ),
        VerdictLine::End { layer, had, want } => {
            put_failed_layer(out, b"rejected end ", layer as u64, had, want)
        }
        VerdictLine::Input { had, want } => put_failed(out, b"rejected input ", had, want),
    }
}

/// The line that says whether the outputs are those that the program means.
fn put_meaning(out: &mut Vec<u8>, same: bool) -> Result<(), AllocError>
    ensures { OnOk result (out.new.items ≡ out.old.items ++ meaning_text same) }
{
    if same {
        out.extend_from_slice(b"meaning same\n")?;
    } else {
        out.extend_from_slice(b"meaning differs\n")?;
    }
    Ok(())
}

/// The line on the first message that isn't the true one.
fn put_message(out: &mut Vec<u8>, place: Option<MessagePlace>) -> Result<(), AllocError>
    ensures { OnOk result (out.new.items ≡ out.old.items ++ message_text place) }
{
    match place {
        Some(MessagePlace::Round { layer, round }) => {
            put_pair(out, b"message ", u64::from(layer), u64::from(round))
        }
        Some(MessagePlace::Line(layer)) => {
            out.extend_from_slice(b"message ")?;
            put_number(out, u64::from(layer), b' ')?;
            out.extend_from_slice(b"line\n")?;
            Ok(())
        }
        None => {
            out.extend_from_slice(b"message none\n")?;
            Ok(())
        }
    }
}

/// The line on the first exceptional challenge.
fn put_challenge(out: &mut Vec<u8>, challenge: Option<(u32, Ext)>) -> Result<(), AllocError>
    ensures { OnOk result (out.new.items ≡ out.old.items ++ challenge_text challenge) }
{
    match challenge {
        Some((number, value)) => {
            out.extend_from_slice(b"challenge ")?;
            put_number(out, u64::from(number), b' ')?;
            put_number(out, u64::from(value.re().value()), b',')?;
            put_number(out, u64::from(value.im().value()), b'\n')
        }
        None => {
            out.extend_from_slice(b"challenge none\n")?;
            Ok(())
        }
    }
}

/// The lines of an audit.
pub(crate) fn put_audit(out: &mut Vec<u8>, audit: AuditLines) -> Result<(), AllocError>
    ensures { OnOk result (out.new.items ≡ out.old.items ++ audit_text audit) }
{
    put_verdict(out, audit.verdict)?;
    put_meaning(out, audit.same)?;
    put_message(out, audit.message)?;
    put_challenge(out, audit.challenge)
}
