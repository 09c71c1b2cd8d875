//! What is reported of a proof and of a refusal.

ghost use Rattle.std.specs.Prelude.{◌≡◌, option_map};
ghost use Rattle.gkr_cmd.specs.Reported.{audit_lines, message_place, refused_reply, sum_line, verdict_line};

use crate::reply_error::ReplyError;
use arr_compile::BadProgram;
use case_prove::{Audit, Place, Refused};
use case_text::{AuditLines, MessagePlace, Reply, VerdictLine};
use gkr_verify::{LayerSum, Verdict};

/// The line on a proof with this verdict.
pub(crate) fn verdict_line(verdict: Verdict) -> VerdictLine
    ensures { result ≡ verdict_line verdict }
{
    match verdict {
        Verdict::Accepted => VerdictLine::Accepted,
        Verdict::Sum {
            layer,
            round,
            had,
            claim,
        } => VerdictLine::Sum {
            layer,
            round,
            had,
            claim,
        },
        Verdict::End { layer, had, want } => VerdictLine::End { layer, had, want },
        Verdict::Input { had, want } => VerdictLine::Input { had, want },
    }
}

/// The line on a round that does not add to its claim.
pub(crate) fn sum_line(fault: LayerSum) -> VerdictLine
    ensures { result ≡ sum_line fault }
{
    VerdictLine::Sum {
        layer: fault.layer,
        round: fault.round,
        had: fault.had,
        claim: fault.claim,
    }
}

/// The lines of an audit.
pub(crate) fn audit_lines(audit: Audit) -> AuditLines
    ensures { result ≡ audit_lines audit }
{
    AuditLines {
        verdict: verdict_line(audit.verdict),
        same: audit.same,
        message: message_named(audit.message),
        challenge: audit.challenge,
    }
}

/// The message that an audit names, where it names one.
fn message_named(place: Option<Place>) -> Option<MessagePlace>
    ensures { result ≡ option_map message_place place }
{
    match place {
        Some(place) => Some(message_place(place)),
        None => None,
    }
}

/// The message in this place.
fn message_place(place: Place) -> MessagePlace
    ensures { result ≡ message_place place }
{
    match place.round {
        Some(round) => MessagePlace::Round {
            layer: place.layer,
            round,
        },
        None => MessagePlace::Line(place.layer),
    }
}

/// The reply to a case that is refused.
pub(crate) fn refused_reply(refused: Refused) -> Result<Reply, ReplyError>
    ensures { result ≡ refused_reply refused }
{
    match refused {
        Refused::Program(BadProgram::At { at, kind }) => Ok(Reply::Program { kind, at }),
        Refused::Program(BadProgram::Deep { levels }) => Ok(Reply::Deep { levels }),
        Refused::Program(BadProgram::Wide { height, width }) => Ok(Reply::Wide { height, width }),
        Refused::Input { have, need } => Ok(Reply::InputCount { have, need }),
        Refused::Output { have, need } => Ok(Reply::OutputCount { have, need }),
        Refused::Proof(bad) => Ok(Reply::Proof(bad)),
        Refused::Memory => Err(ReplyError::Memory),
    }
}
