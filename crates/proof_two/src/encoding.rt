//! Writing the bytes of a proof of version 2, or of either.

ghost use Rattle.std.specs.Prelude.{◌≡◌, ◌++◌, OnOk, IfOk};
ghost use Rattle.std.specs.List.{flat_map};
ghost use Rattle.field_ext.specs.Bytes.{bytes_of};
ghost use Rattle.proof_two.specs.Kinds.{kind_spelling};
ghost use Rattle.proof_two.specs.Spelling.{layer_elements, pair_of, spelling_two};

use crate::kind::{ProofKind, ProofVersion};
use crate::pairs::{LayerPairs, Pairs, RoundPair};
use crate::shortening::shorten;
use field_ext::Ext;
use proof_wire::{Messages, encode_as};
use std::alloc::{AllocError, Global};

/// The bytes of messages as a proof of this kind: in version 2 those without middle coefficients. An error where no memory
/// is left.
pub fn encode_kind(
    alloc: Global,
    kind: ProofKind,
    messages: &Messages,
) -> Result<Vec<u8>, AllocError>
    ensures { IfOk result (λ bytes. bytes.items ≡ kind_spelling kind messages.now) }
{
    match kind {
        ProofKind::ByLines(ProofVersion::Two) => {
            let pairs = shorten(alloc, messages)?;
            encode_two(alloc, &pairs)
        }
        ProofKind::ByLines(ProofVersion::One) | ProofKind::ByPairs => {
            encode_as(alloc, kind.form(), messages)
        }
    }
}

/// The bytes of a proof of version 2 of these messages. An error where no memory is left.
pub fn encode_two(alloc: Global, pairs: &Pairs) -> Result<Vec<u8>, AllocError>
    ensures { IfOk result (λ bytes. bytes.items ≡ spelling_two pairs.now) }
{
    let mut bytes = Vec::new(alloc);
    bytes.extend_from_slice(b"GKR2")?;
    for layer in pairs.layers.as_slice() {
        push_layer(&mut bytes, layer)?;
    }
    Ok(bytes)
}

fn push_layer(bytes: &mut Vec<u8>, layer: &LayerPairs) -> Result<(), AllocError>
    ensures { OnOk result (bytes.new.items ≡ bytes.old.items ++ flat_map bytes_of
        (layer_elements layer.now)) }
{
    push_rounds(bytes, layer.rounds.as_slice())?;
    push_elements(bytes, layer.last.as_slice())
}

fn push_rounds(bytes: &mut Vec<u8>, rounds: &[RoundPair]) -> Result<(), AllocError>
    ensures { OnOk result (bytes.new.items ≡ bytes.old.items ++ flat_map bytes_of
        (flat_map pair_of rounds.now)) }
{
    for round in rounds {
        push_elements(bytes, &round.coefficients())?;
    }
    Ok(())
}

fn push_elements(bytes: &mut Vec<u8>, elements: &[Ext]) -> Result<(), AllocError>
    ensures { OnOk result (bytes.new.items ≡ bytes.old.items ++ flat_map bytes_of elements.now) }
{
    for element in elements {
        bytes.extend_from_slice(&element.to_bytes())?;
    }
    Ok(())
}
