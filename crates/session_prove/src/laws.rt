//! What holds of sessions by their definitions alone.

ghost use Rattle.std.specs.Prelude.{◌≡◌, ◌+◌, ◌*◌, List, drop, length, take};
ghost use Rattle.field_ext.specs.Field.{F};
ghost use Rattle.circuit_core.specs.Parts.{layer_values};
ghost use Rattle.circuit_core.specs.Sound.{SoundCircuit};
ghost use Rattle.arr_compile.specs.Circuits.{IsCompiled};
ghost use Rattle.gkr_layers.specs.Layers.{challenges_of};
ghost use Rattle.live_session.specs.Verifying.{Session, element_count};
ghost use Rattle.case_text.specs.Content.{Content};
ghost use Rattle.case_text.specs.declared.reply.session.SessionSizes.{SessionSizes};
ghost use Rattle.session_prove.specs.Exchange.{HasEnded, whole_session};
ghost use Rattle.session_prove.specs.Sessions.{IsSession};

use arr_compile::laws::{one_circuit, one_tree};

/// A verifier of the outputs that a circuit has, which was fed all that the honest prover sends for its words, accepts, and what it
/// has sent tells the prover so: for any words, one for each challenge.
pub fn sessions_end()
    ensures { (c : SoundCircuit) (s : Session) → s.parts ≡ c.parts
        → length s.outputs ≡ s.parts.outputs →
        s.outputs ≡ take (length s.outputs) (drop 1 (layer_values s.parts s.inputs 0))
        → length s.words ≡ challenges_of s.parts → HasEnded (whole_session s) }
{}

/// A case and words have one session.
pub fn one_session()
    ensures { (c : Content) (words : List F) (some others : SessionSizes) → IsSession c words some
        → IsSession c words others → some ≡ others }
{
    one_tree();
    one_circuit();
}

/// A prover is sent 8 bytes for each challenge and one more, and a verifier 8 for each element of all messages.
pub fn session_sizes()
    ensures challenges { (c : Content) (words : List F) (sizes : SessionSizes)
        → (is : IsSession c words sizes) → sizes.challenges ≡ challenges_of is.parts }
    ensures to_prover { (c : Content) (words : List F) (sizes : SessionSizes)
        → (is : IsSession c words sizes) → sizes.to_prover ≡ 8 * challenges_of is.parts + 1 }
    ensures to_verifier { (c : Content) (words : List F) (sizes : SessionSizes)
        → (is : IsSession c words sizes) → sizes.to_verifier ≡ 8 * element_count is.parts }
{}
