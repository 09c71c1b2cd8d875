//! Laws of the bytes of proofs of version 2, and of both versions. Each function does nothing: its contract is a law that is
//! proved.

ghost use Rattle.std.specs.Prelude.{◌≡◌, ◌++◌, ℕ, List, [], length, drop, IsTrue};
ghost use Rattle.proof_wire.specs.declared.messages.Messages.{Messages};
ghost use Rattle.proof_wire.specs.declared.refused.BadProof.{BadProof};
ghost use Rattle.proof_wire.specs.declared.form.ProofForm.{ProofForm};
ghost use Rattle.proof_wire.specs.Spelling.{spelling};
ghost use Rattle.proof_two.specs.declared.pairs.Pairs.{Pairs};
ghost use Rattle.proof_two.specs.declared.versions.AnyProof.{AnyProof};
ghost use Rattle.proof_two.specs.Spelling.{spelling_two, length_two};
ghost use Rattle.proof_two.specs.Lists.{HavePairs};
ghost use Rattle.proof_two.specs.Trouble.{TroubleIsTwo};
ghost use Rattle.proof_two.specs.Versions.{HasAnyShape, TroubleIsAny, any_spelling, is_two};

/// All proofs of version 2 of a shape have the same length.
#[tactic(auto, using(crate::proofs::api::Lengths::spelling_length))]
pub fn one_length()
    ensures { (ks : List ℕ) (pairs : Pairs) → HavePairs (drop 1 ks) pairs.layers
        → length (spelling_two pairs) ≡ length_two ks }
{}

/// No proof of a shape, of either version, is a prefix of a longer one.
pub fn no_prefix()
    ensures { (ks : List ℕ) (some others : AnyProof) (more : List ℕ) → HasAnyShape ks some
        → HasAnyShape ks others → any_spelling some ++ more ≡ any_spelling others → more ≡ [] }
{}

/// Bytes that spell messages in a version are read in that version, so no bytes spell messages in both.
pub fn one_version()
    ensures one { (messages : Messages) → IsTrue (is_two (spelling ProofForm.Line messages)) → ⊥ }
    ensures two { (pairs : Pairs) → IsTrue (is_two (spelling_two pairs)) }
{}

/// Messages of a shape, of either version, that are written alike are the same.
pub fn one_reading()
    ensures { (ks : List ℕ) (some others : AnyProof) → HasAnyShape ks some → HasAnyShape ks others
        → any_spelling some ≡ any_spelling others → some ≡ others }
{}

/// Bytes that spell messages of the shape, in either version, have no trouble.
pub fn no_trouble()
    ensures { (ks : List ℕ) (proof : AnyProof) (trouble : BadProof) → HasAnyShape ks proof
        → TroubleIsAny ks (any_spelling proof) trouble → ⊥ }
{}

/// Bytes have at most one first trouble, so that a refusal is the only one that can be reported.
pub fn one_trouble()
    ensures two { (ks bytes : List ℕ) (trouble other : BadProof)
        → TroubleIsTwo ks bytes trouble → TroubleIsTwo ks bytes other → trouble ≡ other }
    ensures any { (ks bytes : List ℕ) (trouble other : BadProof)
        → TroubleIsAny ks bytes trouble → TroubleIsAny ks bytes other → trouble ≡ other }
{}
