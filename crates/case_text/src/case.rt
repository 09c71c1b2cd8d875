//! Cases, by their parts.

pub(crate) mod form;
pub(crate) mod reading;
pub(crate) mod refusal;
mod rules;
pub(crate) mod writing;

use arr_ast::Lang;
use field_ext::Fp;
use std::marker::Model;

/// A program's text in its language and its inputs, and outputs and a proof where there are any.
#[derive(Debug, Drop)]
pub struct Case {
    lang: Lang,
    program: Vec<u8>,
    inputs: Vec<Fp>,
    outputs: Option<Vec<Fp>>,
    proof: Option<Vec<u8>>,
}

impl Model for Case {
    ghost use Rattle.std.specs.Option.{option_map};
    ghost use Rattle.case_text.specs.Content.{Content, Fits};

    ghost Value = { Content };

    ghost view = { λ c. record {
      lang = c.lang;
      program = c.program.items;
      inputs = c.inputs.items;
      outputs = option_map (λ v. v.items) c.outputs;
      proof = option_map (λ v. v.items) c.proof;
    } };

    ghost invariant = { λ c. Fits (record {
      lang = c.lang;
      program = c.program.items;
      inputs = c.inputs.items;
      outputs = option_map (λ v. v.items) c.outputs;
      proof = option_map (λ v. v.items) c.proof;
    }) };
}

impl Case {
    ghost use Rattle.std.specs.Prelude.{◌≡◌};
    ghost use Rattle.std.specs.Option.{option_map};
    ghost use Rattle.case_text.specs.Content.{Fits};

    /// A case of these parts: a program of at most 65,536 bytes, at most 262,144 values a line, and a proof of at most
    /// 2,000,000 bytes.
    pub fn new(
        lang: Lang,
        program: Vec<u8>,
        inputs: Vec<Fp>,
        outputs: Option<Vec<Fp>>,
        proof: Option<Vec<u8>>,
    ) -> Case
        requires { Fits (record {
          lang = lang;
          program = program.items;
          inputs = inputs.items;
          outputs = option_map (λ v. v.items) outputs;
          proof = option_map (λ v. v.items) proof;
        }) }
        ensures { result ≡ record {
          lang = lang;
          program = program.items;
          inputs = inputs.items;
          outputs = option_map (λ v. v.items) outputs;
          proof = option_map (λ v. v.items) proof;
        } }
    {
        Case {
            lang,
            program,
            inputs,
            outputs,
            proof,
        }
    }

    /// The language of the program.
    pub fn lang(&self) -> Lang
        ensures { result ≡ self.now.lang }
    {
        self.lang
    }

    /// The bytes of the program.
    pub fn program(&self) -> &[u8]
        ensures program { result.now ≡ self.now.program }
        ensures fits { Fits self.now }
    {
        &self.program
    }

    /// The inputs, in the order of their line.
    pub fn inputs(&self) -> &[Fp]
        ensures inputs { result.now ≡ self.now.inputs }
        ensures fits { Fits self.now }
    {
        &self.inputs
    }

    /// The outputs, where the case has them.
    pub fn outputs(&self) -> Option<&[Fp]>
        ensures { option_map (λ values. values.now) result ≡ self.now.outputs }
    {
        match &self.outputs {
            None => None,
            Some(outputs) => Some(outputs),
        }
    }

    /// The bytes of the proof, where the case has one.
    pub fn proof(&self) -> Option<&[u8]>
        ensures { option_map (λ bytes. bytes.now) result ≡ self.now.proof }
    {
        match &self.proof {
            None => None,
            Some(proof) => Some(proof),
        }
    }
}
