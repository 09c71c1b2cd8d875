//! The rounds of a layer.

ghost use Rattle.std.specs.Prelude.{◌≡◌, ◌≤◌, ℕ, List, ◌++◌, length, IsTrue, IfOk, IfErr};
ghost use Rattle.transcript_fs.specs.Source.{draws, state_after};
ghost use Rattle.proof_wire.specs.Lists.{round_messages};
ghost use Rattle.field_ext.specs.Field.{K};
ghost use Rattle.gkr_layers.specs.Equations.{Equation, sum_equations, claim_after, answer};
ghost use Rattle.gkr_verify.specs.Rounds.{sum_failure};

use field_ext::Ext;
use proof_wire::Round;
use sumcheck_verify::{Rounds, SumFault};
use transcript_fs::Challenges;

/// Takes the messages of all rounds and keeps the challenge after each, up to the first that does not add to its claim.
/// It gives the claim after the last.
pub(crate) fn check_rounds<C: Challenges>(
    messages: &[Round],
    claim: Ext,
    drawn: &mut [Ext],
    challenges: &mut C,
) -> Result<Ext, SumFault>
    requires few { length messages.now ≤ 65536 }
    requires capacity { length drawn.old ≡ length messages.now }
    requires has { IsTrue (C.source.has (C.state challenges.old) (length messages.now)) }
    ensures holds { IfOk result (λ last. (number : ℕ) (rest : List Equation) (more : List (List K))
        →
        answer C.source (C.state challenges.old)
        (sum_equations number 1 claim (round_messages messages.now)
        (draws C.source (C.state challenges.old) (round_messages messages.now)) ++ rest)
        (round_messages messages.now ++ more)
        ≡ answer C.source (state_after C.source (C.state challenges.old)
        (round_messages messages.now)) rest more) }
    ensures claim { IfOk result
        (λ last. last ≡ claim_after claim (round_messages messages.now)
        (draws C.source (C.state challenges.old) (round_messages messages.now))) }
    ensures drawn { IfOk result
        (λ last. drawn.new ≡ draws C.source (C.state challenges.old)
        (round_messages messages.now)) }
    ensures state { IfOk result
        (λ last. C.state challenges.new ≡ state_after C.source (C.state challenges.old)
        (round_messages messages.now)) }
    ensures fails { IfErr result
        (λ fault. (number : ℕ) (rest : List Equation) (more : List (List K)) →
        answer C.source (C.state challenges.old)
        (sum_equations number 1 claim (round_messages messages.now)
        (draws C.source (C.state challenges.old) (round_messages messages.now)) ++ rest)
        (round_messages messages.now ++ more)
        ≡ record { verdict = sum_failure number fault; state = C.state challenges.new }) }
{
    let mut rounds = Rounds::start(claim);
    for (j, message) in messages.iter().enumerate() {
        let coefficients = message.coefficients();
        rounds.take(coefficients)?;
        challenges.absorb(&coefficients);
        let challenge = challenges.challenge();
        rounds.bind(challenge);
        drawn[j] = challenge;
    }
    Ok(rounds.claim())
}
