//! Writing the bytes of a proof.

ghost use Rattle.std.specs.Prelude.{◌≡◌, ◌++◌, OnOk, IfOk};
ghost use Rattle.std.specs.List.{flat_map};
ghost use Rattle.field_ext.specs.Bytes.{bytes_of};
ghost use Rattle.proof_wire.specs.Spelling.{coefficients_of, layer_coefficients, spelling};

use crate::form::ProofForm;
use crate::messages::{LayerMessages, Messages, Round};
use field_ext::Ext;
use std::alloc::{AllocError, Global};

/// The bytes of a proof by lines of these messages. An error where no memory is left.
pub fn encode(alloc: Global, messages: &Messages) -> Result<Vec<u8>, AllocError>
    ensures { IfOk result (λ bytes. bytes.items ≡ spelling ProofForm.Line messages.now) }
{
    encode_as(alloc, ProofForm::Line, messages)
}

/// The bytes of a proof of this form of these messages. An error where no memory is left.
pub fn encode_as(alloc: Global, form: ProofForm, messages: &Messages) -> Result<Vec<u8>, AllocError>
    ensures { IfOk result (λ bytes. bytes.items ≡ spelling form messages.now) }
{
    let mut bytes = Vec::new(alloc);
    bytes.extend_from_slice(&form.magic())?;
    for layer in messages.layers.as_slice() {
        push_layer(&mut bytes, layer)?;
    }
    Ok(bytes)
}

fn push_layer(bytes: &mut Vec<u8>, layer: &LayerMessages) -> Result<(), AllocError>
    ensures { OnOk result (bytes.new.items ≡ bytes.old.items ++ flat_map bytes_of
        (layer_coefficients layer.now)) }
{
    push_rounds(bytes, layer.rounds.as_slice())?;
    push_elements(bytes, layer.last.as_slice())
}

fn push_rounds(bytes: &mut Vec<u8>, rounds: &[Round]) -> Result<(), AllocError>
    ensures { OnOk result (bytes.new.items ≡ bytes.old.items ++ flat_map bytes_of
        (flat_map coefficients_of rounds.now)) }
{
    for round in rounds {
        push_elements(bytes, &round.coefficients())?;
    }
    Ok(())
}

fn push_elements(bytes: &mut Vec<u8>, elements: &[Ext]) -> Result<(), AllocError>
    ensures { OnOk result (bytes.new.items ≡ bytes.old.items ++ flat_map bytes_of elements.now) }
{
    for element in elements {
        bytes.extend_from_slice(&element.to_bytes())?;
    }
    Ok(())
}
