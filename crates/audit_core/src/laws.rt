//! Laws of audits. Each function does nothing: its contract is a law that is proved.

ghost use Rattle.std.specs.Prelude.{◌≡◌, ℕ, List, None, length, drop, IsTrue, IsSome};
ghost use Rattle.field_ext.specs.Field.{F, K};
ghost use Rattle.circuit_core.specs.Sound.{SoundCircuit, exponent_at, exponents};
ghost use Rattle.transcript_fs.specs.Source.{Source, all_draws};
ghost use Rattle.proof_wire.specs.declared.form.ProofForm.{ProofForm};
ghost use Rattle.proof_wire.specs.declared.messages.Messages.{Messages};
ghost use Rattle.proof_wire.specs.Lists.{all_messages, HaveShape};
ghost use Rattle.gkr_layers.specs.declared.verdict.Verdict.TheVariants.{Accepted};
ghost use Rattle.gkr_layers.specs.Layers.{challenges_of};
ghost use Rattle.gkr_layers.specs.Honest.{AreHonestMessages};
ghost use Rattle.audit_core.specs.declared.report.Audit.{Audit};
ghost use Rattle.audit_core.specs.Audit.{AreOutputs, IsAuditOf, names_nothing};

/// Where outputs that the circuit doesn't have are accepted, the audit names an exceptional challenge.
pub fn accepted_falsehood_is_named()
    ensures { (form : ProofForm) (circuit : SoundCircuit) (inputs outputs : List F)
        (messages : Messages) (rs : List K) (audit : Audit)
        → length outputs ≡ circuit.parts.outputs
        → HaveShape form (drop 1 (exponents circuit.parts)) messages.layers
        → length rs ≡ challenges_of circuit.parts
        → IsAuditOf form circuit.parts inputs outputs (all_messages messages.layers) rs audit
        → audit.verdict ≡ Accepted → ¬ IsTrue audit.same → IsSome audit.challenge }
{}

/// Where the outputs are the circuit's and no message differs from the true one, the proof is accepted.
pub fn truth_is_accepted()
    ensures { (form : ProofForm) (circuit : SoundCircuit) (inputs outputs : List F)
        (messages : Messages) (rs : List K) (audit : Audit)
        → length outputs ≡ circuit.parts.outputs
        → HaveShape form (drop 1 (exponents circuit.parts)) messages.layers
        → length rs ≡ challenges_of circuit.parts
        → IsAuditOf form circuit.parts inputs outputs (all_messages messages.layers) rs audit
        → IsTrue audit.same → audit.message ≡ None → audit.verdict ≡ Accepted }
{}

/// The audit of honest messages, where the outputs are the circuit's, names nothing.
pub fn honesty_is_unnamed()
    ensures { (form : ProofForm) (circuit : SoundCircuit) (inputs outputs : List F)
        (source : Source)
        (s : List ℕ) (messages : Messages) → length outputs ≡ circuit.parts.outputs
        → AreOutputs circuit.parts inputs outputs
        → HaveShape form (drop 1 (exponents circuit.parts)) messages.layers →
        let qs = all_messages messages.layers in
        AreHonestMessages form circuit.parts inputs source s qs
        → IsAuditOf form circuit.parts inputs outputs qs
        (all_draws source s (exponent_at circuit.parts 0) qs) names_nothing }
{}

/// There is one audit of a proof.
pub fn one_audit()
    ensures { (form : ProofForm) (circuit : SoundCircuit) (inputs outputs : List F)
        (qs : List (List K)) (rs : List K) (audit other : Audit)
        → IsAuditOf form circuit.parts inputs outputs qs rs audit
        → IsAuditOf form circuit.parts inputs outputs qs rs other → audit ≡ other }
{}
