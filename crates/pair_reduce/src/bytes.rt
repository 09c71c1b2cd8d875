//! The bytes of a proof by pairs.

ghost use Rattle.std.specs.Prelude.{◌≡◌, IfErr, IfOk, MatchResult, drop};
ghost use Rattle.proof_wire.specs.declared.messages.Messages.{Messages as Listed};
ghost use Rattle.proof_wire.specs.declared.refused.ProofRefused.TheVariants.{Memory};
ghost use Rattle.proof_wire.specs.Lists.{HaveShape};
ghost use Rattle.proof_wire.specs.Spelling.{length_of, spelling};
ghost use Rattle.proof_wire.specs.Trouble.{RefusedFor};

use circuit_core::Shape;
use proof_wire::{Messages, ProofForm, ProofRefused, decode_as, encode_as, proof_len_as};
use std::alloc::{AllocError, Global};

/// The messages of a proof by pairs, of which the last of each layer is its pair.
pub type PairMessages = Messages;

/// How many bytes a proof by pairs has, for a circuit of this shape.
pub fn proof_len_pair(shape: &Shape) -> u64
    ensures { result ≡ length_of ProofForm.Pair shape.now.ks }
{
    proof_len_as(ProofForm::Pair, shape)
}

/// The messages that the bytes spell by pairs, for a circuit of this shape. The refusal names the first trouble from the
/// front. No more memory is asked for than for the elements that are there.
pub fn decode_pair(alloc: Global, bytes: &[u8], shape: &Shape) -> Result<PairMessages, ProofRefused>
    ensures of { IfOk result
        (λ messages. HaveShape ProofForm.Pair (drop 1 shape.now.ks) messages.layers) }
    ensures found { IfOk result (λ messages. spelling ProofForm.Pair messages ≡ bytes.now) }
    ensures only { (messages : Listed)
        → HaveShape ProofForm.Pair (drop 1 shape.now.ks) messages.layers
        → bytes.now ≡ spelling ProofForm.Pair messages →
        MatchResult result (λ read. read ≡ messages) (λ e. e ≡ Memory) }
    ensures exact { IfErr result (λ e. RefusedFor ProofForm.Pair shape.now.ks bytes.now e) }
{
    decode_as(alloc, ProofForm::Pair, bytes, shape)
}

/// The bytes of a proof by pairs of these messages. An error where no memory is left.
pub fn encode_pair(alloc: Global, messages: &PairMessages) -> Result<Vec<u8>, AllocError>
    ensures { IfOk result (λ bytes. bytes.items ≡ spelling ProofForm.Pair messages.now) }
{
    encode_as(alloc, ProofForm::Pair, messages)
}
