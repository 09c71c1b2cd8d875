//! Laws of messages that are filled in. Each function does nothing: its contract is a law that is proved.

ghost use Rattle.std.specs.Prelude.{◌≡◌, false, ℕ, List, drop};
ghost use Rattle.field_ext.specs.Field.{F};
ghost use Rattle.circuit_core.specs.Parts.{Parts};
ghost use Rattle.circuit_core.specs.Sound.{exponents};
ghost use Rattle.transcript_fs.specs.Source.{Source, all_draws};
ghost use Rattle.proof_wire.specs.declared.form.ProofForm.TheVariants.{Line};
ghost use Rattle.proof_wire.specs.declared.messages.Messages.{Messages};
ghost use Rattle.proof_wire.specs.Lists.{all_messages, HaveShape};
ghost use Rattle.proof_two.specs.declared.pairs.Pairs.{Pairs};
ghost use Rattle.proof_two.specs.Lists.{HavePairs, shortened};
ghost use Rattle.gkr_layers.specs.declared.verdict.Verdict.TheVariants.{Accepted};
ghost use Rattle.gkr_layers.specs.Equations.{first_failure};
ghost use Rattle.gkr_layers.specs.Acceptance.{claim_of, verdict_of};
ghost use Rattle.gkr_verify.specs.ShortProof.{filled, is_sum, sums_of};

/// Messages that are filled in have the shape of a proof of version 1, and shorten back to what they were filled in from.
pub fn filled_shape()
    ensures shape { (ks : List ℕ) (p : Parts) (outputs : List F) (source : Source) (s : List ℕ)
        (pairs : Pairs) → HavePairs ks pairs.layers
        → HaveShape Line ks (filled p outputs source s pairs).layers }
    ensures shortens { (p : Parts) (outputs : List F) (source : Source) (s : List ℕ) (pairs : Pairs)
        → shortened (filled p outputs source s pairs) ≡ pairs }
{}

/// Every sum equation holds of messages that are filled in.
pub fn filled_sums_hold()
    ensures { (p : Parts) (outputs : List F) (source : Source) (s : List ℕ) (pairs : Pairs)
        → first_failure (sums_of p outputs source s (filled p outputs source s pairs)) ≡ Accepted }
{}

/// Messages whose sum equations hold are those that fill in what is left of them without middle coefficients.
pub fn sums_fill()
    ensures { (p : Parts) (outputs : List F) (source : Source) (s : List ℕ) (messages : Messages)
        → first_failure (sums_of p outputs source s messages) ≡ Accepted
        → filled p outputs source s (shortened messages) ≡ messages }
{}

/// Where every sum equation holds, the verifier's answer is no `Sum`.
pub fn no_sum()
    ensures { (p : Parts) (inputs outputs : List F) (source : Source) (s : List ℕ)
        (messages : Messages) → HaveShape Line (drop 1 (exponents p)) messages.layers
        → first_failure (sums_of p outputs source s messages) ≡ Accepted →
        let stated = claim_of p inputs outputs in
        let qs = all_messages messages.layers in
        is_sum (verdict_of stated qs (all_draws source s stated.k qs)) ≡ false }
{}

/// Where every equation of acceptance holds, every sum equation does.
pub fn accepted_sums_hold()
    ensures { (p : Parts) (inputs outputs : List F) (source : Source) (s : List ℕ)
        (messages : Messages) → HaveShape Line (drop 1 (exponents p)) messages.layers →
        let stated = claim_of p inputs outputs in
        let qs = all_messages messages.layers in
        verdict_of stated qs (all_draws source s stated.k qs) ≡ Accepted
        → first_failure (sums_of p outputs source s messages) ≡ Accepted }
{}
