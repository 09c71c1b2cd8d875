//! Laws of live sessions. Each function does nothing: its contract is a law that is proved.

ghost use Rattle.std.specs.Prelude.{◌≡◌, ◌++◌, ℕ, List, Some, drop, take, length};
ghost use Rattle.std.specs.List.{flat_map};
ghost use Rattle.field_ext.specs.Field.{F, K};
ghost use Rattle.circuit_core.specs.Parts.{Parts, input_table};
ghost use Rattle.circuit_core.specs.Sound.{exponent_at};
ghost use Rattle.gkr_layers.specs.Honest.{AreHonest};
ghost use Rattle.gkr_layers.specs.Layers.{layers_of, message_count};
ghost use Rattle.gkr_layers.specs.Places.Place.{At};
ghost use Rattle.live_session.specs.Proving.{Proving, fed_more, honest_for, stop_of};
ghost use Rattle.live_session.specs.Verifying.{Session, fed_all, joined, kept, progress_in, verifier_sent};
ghost use Rattle.live_session.specs.declared.progress.LiveFault.{LiveFault};
ghost use Rattle.proof_wire.specs.declared.form.ProofForm.TheVariants.{Line};

/// The state of a verifier after any pieces is that after their bytes joined, and so are what it answers to more bytes and
/// what it has sent.
pub fn one_state()
    ensures state { (s : Session) (pieces : List (List ℕ))
        → kept (fed_all s pieces) ≡ kept (joined s (flat_map (λ piece. piece) pieces)) }
    ensures progress { (s : Session) (before more : List ℕ)
        → progress_in (joined (kept (joined s before)) more)
        ≡ progress_in (joined s (before ++ more)) }
    ensures sent { (s : Session) → verifier_sent (kept s) ≡ verifier_sent s }
{}

/// A prover that was fed two pieces is one that was fed their bytes joined, and a fault that stops it is that of all bytes,
/// whatever follows.
pub fn one_course()
    ensures state { (s : Proving) (before more : List ℕ)
        → fed_more (fed_more s before) more ≡ fed_more s (before ++ more) }
    ensures stop { (due : ℕ) (before more : List ℕ) (fault : LiveFault)
        → stop_of due before ≡ Some fault → stop_of due (before ++ more) ≡ Some fault }
{}

/// The messages that a prover sends are honest for the challenges that it is fed, and as many as its circuit takes.
pub fn honest()
    ensures honest { (p : Parts) (inputs : List F) (words : List K) →
        AreHonest Line (layers_of p) (input_table p inputs) (At (take (exponent_at p 0) words))
        (honest_for p inputs words) (drop (exponent_at p 0) words) }
    ensures count { (p : Parts) (inputs : List F) (words : List K)
        → length (honest_for p inputs words) ≡ message_count (layers_of p) }
{}
