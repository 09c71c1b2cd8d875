//! Laws of the bytes of proofs. Each function does nothing: its contract is a law that is proved.

ghost use Rattle.std.specs.Prelude.{◌≡◌, ◌++◌, ℕ, List, [], length, drop};
ghost use Rattle.proof_wire.specs.declared.messages.Messages.{Messages};
ghost use Rattle.proof_wire.specs.declared.refused.BadProof.{BadProof};
ghost use Rattle.proof_wire.specs.declared.form.ProofForm.{ProofForm};
ghost use Rattle.proof_wire.specs.Forms.{form_of};
ghost use Rattle.proof_wire.specs.Spelling.{spelling, length_of};
ghost use Rattle.proof_wire.specs.Lists.{HaveShape};
ghost use Rattle.proof_wire.specs.Trouble.{TroubleIs};

/// All proofs of a form and a shape have the same length.
#[tactic(auto, using(crate::proofs::api::Lengths::spelling_length))]
pub fn one_length()
    ensures { (form : ProofForm) (ks : List ℕ) (messages : Messages)
        → HaveShape form (drop 1 ks) messages.layers
        → length (spelling form messages) ≡ length_of form ks }
{}

/// No proof of a form and a shape is a prefix of a longer one.
pub fn no_prefix()
    ensures { (form : ProofForm) (ks : List ℕ) (some others : Messages) (more : List ℕ)
        → HaveShape form (drop 1 ks) some.layers → HaveShape form (drop 1 ks) others.layers
        → spelling form some ++ more ≡ spelling form others → more ≡ [] }
{}

/// Messages of a shape that are written alike in a form are the same.
pub fn one_reading()
    ensures { (form : ProofForm) (ks : List ℕ) (some others : Messages)
        → HaveShape form (drop 1 ks) some.layers → HaveShape form (drop 1 ks) others.layers
        → spelling form some ≡ spelling form others → some ≡ others }
{}

/// Bytes that spell messages in a form are read in that form, so no bytes spell messages in two.
pub fn one_form()
    ensures { (form : ProofForm) (messages : Messages) → form_of (spelling form messages) ≡ form }
{}

/// Bytes that spell messages of the shape in a form have no trouble there.
pub fn no_trouble()
    ensures { (form : ProofForm) (ks : List ℕ) (messages : Messages) (trouble : BadProof)
        → HaveShape form (drop 1 ks) messages.layers
        → TroubleIs form ks (spelling form messages) trouble → ⊥ }
{}

/// Bytes have at most one first trouble in a form, so that a refusal is the only one that can be reported.
pub fn one_trouble()
    ensures { (form : ProofForm) (ks bytes : List ℕ) (trouble other : BadProof)
        → TroubleIs form ks bytes trouble → TroubleIs form ks bytes other → trouble ≡ other }
{}
