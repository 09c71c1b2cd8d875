//! Laws of proved cases. Each is a function that does nothing and ensures the law.

ghost use Rattle.std.specs.Prelude.{◌≡◌, ◌<◌, ◌↔◌, ℕ, List, IsSome, IsTrue, Some, drop, length};
ghost use Rattle.field_ext.specs.Field.{F};
ghost use Rattle.gkr_layers.specs.declared.verdict.Verdict.TheVariants.{Accepted};
ghost use Rattle.circuit_core.specs.Parts.{Parts};
ghost use Rattle.circuit_core.specs.Sound.{exponents};
ghost use Rattle.proof_wire.specs.Lists.{HaveShape};
ghost use Rattle.proof_wire.specs.Spelling.{spelling};
ghost use Rattle.proof_wire.specs.declared.form.ProofForm.{ProofForm};
ghost use Rattle.proof_wire.specs.declared.messages.Messages.{Messages};
ghost use Rattle.proof_wire.specs.declared.refused.BadProof.{BadProof};
ghost use Rattle.proof_two.specs.declared.kind.ProofKind.{ProofKind};
ghost use Rattle.proof_two.specs.declared.kind.ProofKind.TheVariants.{ByLines};
ghost use Rattle.proof_two.specs.declared.kind.ProofVersion.{ProofVersion};
ghost use Rattle.proof_two.specs.declared.kind.ProofVersion.TheVariants.{One, Two};
ghost use Rattle.proof_two.specs.Kinds.{TroubleIn};
ghost use Rattle.gkr_layers.specs.declared.verdict.Verdict.{Verdict};
ghost use Rattle.case_prove.specs.Converted.{IsConverted};
ghost use Rattle.audit_core.specs.Audit.{names_nothing};
ghost use Rattle.audit_core.specs.declared.report.Audit.{Audit};
ghost use Rattle.case_text.specs.Content.{Content, Fits};
ghost use Rattle.case_text.specs.Spelling.{Spells, lower_case_text};
ghost use Rattle.case_text.specs.declared.case.form.Form.TheVariants.{Full};
ghost use Rattle.case_prove.specs.Audited.{IsAudited};
ghost use Rattle.case_prove.specs.Proved.{IsProved};
ghost use Rattle.case_prove.specs.Sound.{HasExceptionalChallenge, HasMeaning};
ghost use Rattle.case_prove.specs.Verified.{IsVerdictOn, Says, proof_form};

use arr_compile::laws::{circuit_computes, circuit_is_sound, one_circuit, one_tree};
use audit_core::laws::honesty_is_unnamed;
use gkr_layers::laws::{honest_is_accepted, honest_is_unique};

/// The verifier accepts what the prover gives.
pub fn proved_is_accepted()
    ensures { (kind : ProofKind) (c proved : Content) → IsProved kind c proved
        → IsVerdictOn proved Accepted }
{
    one_tree();
    circuit_computes();
    honest_is_accepted();
}

/// A case has one proof of a kind: what the prover gives depends on the case and the kind alone.
pub fn proved_is_one()
    ensures { (kind : ProofKind) (c proved other : Content) → IsProved kind c proved
        → IsProved kind c other → proved ≡ other }
{
    one_tree();
    one_circuit();
    honest_is_unique();
}

/// What the prover gives keeps to the limits of cases.
pub fn proved_fits()
    ensures { (kind : ProofKind) (c proved : Content) → Fits c → IsProved kind c proved
        → Fits proved }
{
    one_tree();
    circuit_computes();
    circuit_is_sound();
}

/// The text of what the prover gives is one of a case with outputs and a proof, and of this case.
pub fn proved_is_full()
    ensures { (kind : ProofKind) (c proved : Content) → Fits c → IsProved kind c proved
        → Spells Full (lower_case_text proved) proved }
{
    proved_fits();
}

/// The text of what the prover gives is short enough to be read: it has fewer than 8,388,608 bytes.
pub fn proved_is_short()
    ensures { (kind : ProofKind) (c proved : Content) → Fits c → IsProved kind c proved
        → length (lower_case_text proved) < 8388608 }
{
    one_tree();
    circuit_computes();
    circuit_is_sound();
}

/// Where a case is accepted whose outputs aren't its program's meaning on its inputs, some challenge of its own transcript is
/// exceptional after the messages and challenges before it, and few are.
pub fn sound()
    ensures { (c : Content) → IsVerdictOn c Accepted → ¬ HasMeaning c
        → (n : ℕ) × HasExceptionalChallenge c n }
{
    circuit_computes();
    circuit_is_sound();
    gkr_layers::laws::sound();
}

/// A case has one audit.
pub fn audit_is_one()
    ensures { (c : Content) (audit other : Audit) → IsAudited c audit → IsAudited c other
        → audit ≡ other }
{
    one_circuit();
    audit_core::laws::one_audit();
}

/// An audit begins with the verifier's answer.
pub fn audit_has_the_verdict()
    ensures { (c : Content) (audit : Audit) → IsAudited c audit → IsVerdictOn c audit.verdict }
{}

/// An audit says that the outputs are the same exactly where they are the program's meaning on the inputs.
pub fn audit_says_the_meaning()
    ensures { (c : Content) (audit : Audit) → IsAudited c audit
        → IsTrue audit.same ↔ HasMeaning c }
{
    one_tree();
    circuit_computes();
}

/// Where a case is accepted whose outputs aren't its program's meaning on its inputs, the audit names an exceptional challenge.
pub fn accepted_falsehood_is_named()
    ensures { (c : Content) (audit : Audit) → IsAudited c audit → audit.verdict ≡ Accepted
        → ¬ HasMeaning c → IsSome audit.challenge }
{
    circuit_computes();
    audit_core::laws::accepted_falsehood_is_named();
}

/// The audit of what the prover gives, by lines in either version, names nothing.
pub fn proved_is_unnamed()
    ensures { (version : ProofVersion) (c proved : Content) → IsProved (ByLines version) c proved
        → IsAudited proved names_nothing }
{
    honest_is_accepted();
    one_tree();
    circuit_computes();
    honesty_is_unnamed();
}

/// A proof says messages in one form alone, and there the same messages, or it has one first trouble.
pub fn one_saying()
    ensures form { (form : ProofForm) (c : Content) (parts : Parts) (outputs : List F)
        (messages : Messages) → Says form c parts outputs messages → proof_form c ≡ form }
    ensures reading { (form : ProofForm) (c : Content) (parts : Parts) (outputs : List F)
        (some others : Messages) → HaveShape form (drop 1 (exponents parts)) some.layers
        → HaveShape form (drop 1 (exponents parts)) others.layers
        → Says form c parts outputs some → Says form c parts outputs others → some ≡ others }
    ensures trouble { (form : ProofForm) (ks bytes : List ℕ) (trouble other : BadProof)
        → TroubleIn form ks bytes trouble → TroubleIn form ks bytes other → trouble ≡ other }
    ensures none { (form : ProofForm) (c : Content) (parts : Parts) (outputs : List F)
        (messages : Messages) (proof : List ℕ) (trouble : BadProof)
        → HaveShape form (drop 1 (exponents parts)) messages.layers
        → Says form c parts outputs messages → c.proof ≡ Some proof
        → TroubleIn form (exponents parts) proof trouble → ⊥ }
{}

/// What is converted has the verdicts that the case has, and a case has one for a version.
pub fn converted_keeps()
    ensures verdict { (version : ProofVersion) (c written : Content)
        → IsConverted version c written → (verdict : Verdict)
        → IsVerdictOn c verdict ↔ IsVerdictOn written verdict }
    ensures one { (version : ProofVersion) (c written other : Content)
        → IsConverted version c written → IsConverted version c other → written ≡ other }
{
    one_circuit();
}

/// The text of what is converted is one of a case with outputs and a proof, and of this case.
pub fn converted_is_full()
    ensures { (version : ProofVersion) (c written : Content) → Fits c
        → IsConverted version c written → Spells Full (lower_case_text written) written }
{
    circuit_is_sound();
}

/// The text of what is converted is short enough to be read: it has fewer than 8,388,608 bytes.
pub fn converted_is_short()
    ensures { (version : ProofVersion) (c written : Content) → Fits c
        → IsConverted version c written → length (lower_case_text written) < 8388608 }
{
    circuit_is_sound();
}

/// A case whose proof is of version 1 is the same once it was converted to version 2 and back.
pub fn converted_back()
    ensures { (c two one : Content) → IsConverted Two c two → IsConverted One two one
        → ((messages : Messages) × (c.proof ≡ Some (spelling ProofForm.Line messages)))
        → one ≡ c }
{
    one_circuit();
}
