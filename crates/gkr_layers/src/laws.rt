//! Laws of both forms of the protocol. Each function does nothing: its contract is a law that is proved.

ghost use Rattle.std.specs.Prelude.{◌≡◌, ◌↔◌, ◌+◌, ◌*◌, ◌<◌, ◌≤◌, ◌^◌, ℕ, List, length, map, slice_index_or, take, drop, All};
ghost use Rattle.field_ext.specs.Field.{F, K, k_ops, zero_k, embed_k};
ghost use Rattle.field_ext.specs.Polynomial.{HasAtMost};
ghost use Rattle.field_ext.specs.Sums.{sum_cube};
ghost use Rattle.circuit_core.specs.declared.gate.CircuitGate.{CircuitGate};
ghost use Rattle.circuit_core.specs.Parts as parts;
ghost use Rattle.circuit_core.specs.Parts.{Parts, layer_values, height, input_table};
ghost use Rattle.circuit_core.specs.Sound.{SoundCircuit, exponents};
ghost use Rattle.wiring_poly.specs.Wiring.{values_above};
ghost use Rattle.transcript_fs.specs.Source.{Source, draws, all_draws, state_after, state_after_point};
ghost use Rattle.proof_wire.specs.declared.messages.Messages.{Messages};
ghost use Rattle.proof_wire.specs.Lists.{all_messages, HaveShape};
ghost use Rattle.gkr_layers.specs.declared.verdict.Verdict.TheVariants.{Accepted};
ghost use Rattle.gkr_layers.specs.Places.{Place, IsOver, value_over, weighted_summand_at};
ghost use Rattle.proof_wire.specs.declared.form.ProofForm.{ProofForm};
ghost use Rattle.proof_wire.specs.Forms.{last_degree};
ghost use Rattle.gkr_layers.specs.Forms.{last_polynomial};
ghost use Rattle.proof_wire.specs.declared.form.ProofForm.TheVariants.{Line, Pair};
ghost use Rattle.gkr_layers.specs.Sumcheck.{round_polynomial};
ghost use Rattle.gkr_layers.specs.Layers.{GateLayer, LayersHold, IsExceptional, FitTogether, message_count, total_exponent, values_over, layers_below};
ghost use Rattle.gkr_layers.specs.Acceptance.{CircuitClaim, Accepts, challenge_count, claim_in, verdict_of, answer_from};
ghost use Rattle.gkr_layers.specs.Soundness.{IsExceptionalChallenge, HaveDegrees, IsFalse, LetsPass, bound, bounds, sum_of_bounds};
ghost use Rattle.gkr_layers.specs.Honest.{AreHonest, AreHonestMessages};

/// The values that a circuit's layers have over F_p are those that the layers have as elements of K.
pub fn one_value()
    ensures { (p : Parts) (inputs : List F) (i : ℕ)
        → map embed_k (layer_values p inputs i) ≡ values_over k_ops (layers_below p i)
        (input_table p inputs) }
{}

/// The extension of a layer's values at the place of a claim is the sum of the summand over all Boolean points of the two
/// operands.
pub fn layer_sum()
    ensures { (k : ℕ) (gates : List CircuitGate) (below : List K) (j : ℕ) (place : Place K)
        → IsOver j place → length gates ≡ 2 ^ j → All (parts.IsOver (2 ^ k)) gates →
        value_over k_ops (values_above k_ops gates below) place ≡ sum_cube k_ops (k + k)
        (weighted_summand_at k_ops k_ops (λ x. x) k gates below place) }
{}

/// The true polynomial of a round has at most three coefficients, and the true last message at most one more than its
/// degree: two for a pair, and for a line one more than the layer below has coordinates.
pub fn degrees()
    ensures rounds { (k : ℕ) (gates : List CircuitGate) (values : List K) (place : Place K)
        (bound : List K) (n : ℕ)
        → length (round_polynomial k_ops k gates values place bound n) ≤ 3 }
    ensures last { (form : ProofForm) (values b c : List K) (k : ℕ) → length b ≤ k
        → length (last_polynomial k_ops form values b c) ≤ last_degree form k + 1 }
{}

/// The answer is `Accepted` exactly where every equation holds.
#[tactic(auto, using(crate::proofs::api::Accepted::accepted_exactly))]
pub fn accepted_exactly()
    ensures { (stated : CircuitClaim) (qs : List (List K)) (rs : List K)
        → length qs ≡ message_count stated.layers → length rs ≡ challenge_count stated
        → (verdict_of stated qs rs ≡ Accepted) ↔ Accepts stated qs rs }
{}

/// The answer that a verifier gives with challenges from a source is the one for the challenges that the source gives. Where it is
/// `Accepted`, every message has been taken in.
pub fn answers()
    ensures verdict { (stated : CircuitClaim) (source : Source) (s : List ℕ) (qs : List (List K))
        → (answer_from stated source s qs).verdict ≡ verdict_of stated qs
        (all_draws source s stated.k qs) }
    ensures accepted { (stated : CircuitClaim) (source : Source) (s : List ℕ) (qs : List (List K))
        → length qs ≡ message_count stated.layers
        → (answer_from stated source s qs).verdict ≡ Accepted →
        (answer_from stated source s qs).state ≡ state_after source
        (state_after_point source s stated.k) qs }
{}

/// At each place and after any messages and challenges, few challenges are exceptional, whatever the verdict is.
pub fn few_exceptional()
    ensures { (stated : CircuitClaim) (qs : List (List K)) (rs : List K) (n : ℕ)
        → HaveDegrees stated.form stated.layers qs
        → HasAtMost (bound stated n) (IsExceptionalChallenge stated qs rs n) }
{}

/// There is one bound for each challenge. The bounds of all challenges add, by lines, to the coordinates of the output point and five times those of
/// the layers below; by pairs to the coordinates of the output point, four times those of the layers below, and the layers.
pub fn bounds_add()
    ensures one_each { (stated : CircuitClaim) → length (bounds stated) ≡ challenge_count stated }
    ensures lines { (k : ℕ) (layers : List GateLayer)
        → sum_of_bounds Line k layers ≡ k + 5 * total_exponent layers }
    ensures pairs { (k : ℕ) (layers : List GateLayer)
        → sum_of_bounds Pair k layers ≡ k + 4 * total_exponent layers + length layers }
{}

/// A false claim on the first layer that passes every equation shows an exceptional challenge.
pub fn sound_layers()
    ensures { (form : ProofForm) (j : ℕ) (layers : List GateLayer) (input : List K)
        (place : Place K)
        (claim : K) (qs : List (List K)) (rs : List K) → IsOver j place → FitTogether j layers →
        length qs ≡ message_count layers → length rs ≡ message_count layers →
        LayersHold k_ops form layers input place claim qs rs
        → ((claim ≡ value_over k_ops (values_over k_ops layers input) place) → ⊥) →
        (n : ℕ) × (n < message_count layers)
        × IsExceptional k_ops form layers input place qs rs n (slice_index_or rs n zero_k) }
{}

/// Where outputs that the circuit doesn't have are accepted, some challenge is exceptional after the messages and challenges
/// before it, and few are: for every list of as many challenges as a check draws, as those are that a source gives.
pub fn sound()
    ensures forms { (form : ProofForm) (circuit : SoundCircuit) (inputs outputs : List F)
        (qs : List (List K)) (rs : List K) → length outputs ≡ circuit.parts.outputs →
        let stated = claim_in form circuit.parts inputs outputs in
        HaveDegrees form stated.layers qs →
        length qs ≡ message_count stated.layers → length rs ≡ challenge_count stated
        → verdict_of stated qs rs ≡ Accepted → IsFalse circuit.parts inputs outputs
        → (n : ℕ) × LetsPass stated qs rs n }
    ensures lists { (form : ProofForm) (circuit : SoundCircuit) (inputs outputs : List F)
        (messages : Messages) (rs : List K) → length outputs ≡ circuit.parts.outputs
        → HaveShape form (drop 1 (exponents circuit.parts)) messages.layers →
        let stated = claim_in form circuit.parts inputs outputs in
        let qs = all_messages messages.layers in
        length rs ≡ challenge_count stated → verdict_of stated qs rs ≡ Accepted
        → IsFalse circuit.parts inputs outputs → (n : ℕ) × LetsPass stated qs rs n }
    ensures draws { (form : ProofForm) (circuit : SoundCircuit) (inputs outputs : List F)
        (messages : Messages) (source : Source) (state : List ℕ)
        → HaveShape form (drop 1 (exponents circuit.parts)) messages.layers →
        let stated = claim_in form circuit.parts inputs outputs in
        length (all_draws source state stated.k (all_messages messages.layers)) ≡ challenge_count
        stated }
{}

/// Honest messages are accepted, where the claimed outputs are those that the circuit has on these inputs.
pub fn honest_is_accepted()
    ensures forms { (form : ProofForm) (c : SoundCircuit) (inputs outputs : List F)
        (source : Source)
        (s : List ℕ) (qs : List (List K)) → length outputs ≡ c.parts.outputs →
        outputs ≡ take (length outputs) (drop 1 (layer_values c.parts inputs 0))
        → let stated = claim_in form c.parts inputs outputs in
        length qs ≡ message_count stated.layers →
        AreHonestMessages form c.parts inputs source s qs
        → verdict_of stated qs (all_draws source s stated.k qs) ≡ Accepted }
    ensures proofs { (form : ProofForm) (c : SoundCircuit) (inputs outputs : List F)
        (source : Source) (s : List ℕ) (messages : Messages) → length outputs ≡ c.parts.outputs →
        outputs ≡ take (length outputs) (drop 1 (layer_values c.parts inputs 0))
        → HaveShape form (drop 1 (exponents c.parts)) messages.layers →
        let stated = claim_in form c.parts inputs outputs in
        let qs = all_messages messages.layers in AreHonestMessages form c.parts inputs source s qs
        → verdict_of stated qs (all_draws source s stated.k qs) ≡ Accepted }
{}

/// For a source of challenges there is one list of honest messages.
pub fn honest_is_unique()
    ensures { (form : ProofForm) (layers : List GateLayer) (input : List K) (place : Place K)
        (source : Source) (s : List ℕ) (qs others : List (List K)) →
        length qs ≡ message_count layers → length others ≡ message_count layers →
        AreHonest form layers input place qs (draws source s qs)
        → AreHonest form layers input place others (draws source s others) → qs ≡ others }
{}
