//! What a proof is of.

ghost use Rattle.std.specs.Prelude.{◌≡◌, ◌<◌, ◌^◌, length};

use field_ext::Fp;
use std::marker::Model;

/// What a proof is about: a program's text, its inputs and its outputs, each shorter than `2^32`.
#[derive(Drop)]
pub struct Statement<'a> {
    text: &'a [u8],
    inputs: &'a [Fp],
    outputs: &'a [Fp],
}

impl<'a> Model for Statement<'a> {
    ghost use Rattle.std.specs.Prelude.{◌<◌, ◌^◌, length};
    ghost use Rattle.transcript_fs.specs.Transcript.{Stated};

    ghost Value = { Stated };

    ghost view = { λ s. record {
      text = s.text.now;
      inputs = s.inputs.now;
      outputs = s.outputs.now;
    } };

    ghost invariant = { λ s. (length s.text.now < 2 ^ 32) × (length s.inputs.now < 2 ^ 32)
        × (length s.outputs.now < 2 ^ 32) };
}

impl<'a> Statement<'a> {
    /// The statement that the program of this text, on these inputs, gives these outputs.
    pub fn of(text: &'a [u8], inputs: &'a [Fp], outputs: &'a [Fp]) -> Self
        requires text { length text.now < 2 ^ 32 }
        requires inputs { length inputs.now < 2 ^ 32 }
        requires outputs { length outputs.now < 2 ^ 32 }
        ensures text { result.text ≡ text.now }
        ensures inputs { result.inputs ≡ inputs.now }
        ensures outputs { result.outputs ≡ outputs.now }
    {
        Statement {
            text,
            inputs,
            outputs,
        }
    }

    /// The program's text.
    pub fn text(&self) -> &'a [u8]
        ensures value { result.now ≡ self.now.text }
        ensures fits { length result.now < 2 ^ 32 }
    {
        self.text
    }

    /// The inputs, in order.
    pub fn inputs(&self) -> &'a [Fp]
        ensures value { result.now ≡ self.now.inputs }
        ensures fits { length result.now < 2 ^ 32 }
    {
        self.inputs
    }

    /// The outputs, in order.
    pub fn outputs(&self) -> &'a [Fp]
        ensures value { result.now ≡ self.now.outputs }
        ensures fits { length result.now < 2 ^ 32 }
    {
        self.outputs
    }
}
