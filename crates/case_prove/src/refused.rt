//! Why a case has no answer.

ghost use Rattle.std.specs.Prelude.{◌≡◌};
ghost use Rattle.case_prove.specs.Evaluated.{compile_refused, eval_refused};

use arr_compile::{BadProgram, CompileRefused};
use arr_eval::EvalRefused;
use proof_wire::BadProof;

/// Why a case has no answer.
#[derive(Clone, Copy, PartialEq, Eq, Debug)]
pub enum Refused {
    /// The program's text is refused.
    Program(BadProgram),
    /// The case has another number of inputs than its program.
    Input { have: u64, need: u64 },
    /// The case has another number of outputs than its program's circuit.
    Output { have: u64, need: u64 },
    /// The case's proof is none of the circuit's shape.
    Proof(BadProof),
    /// Memory ran out.
    Memory,
}

/// A refusal of the program's text.
pub fn program_refused(refused: CompileRefused) -> Refused
    ensures { result ≡ compile_refused refused }
{
    match refused {
        CompileRefused::Bad(bad) => Refused::Program(bad),
        CompileRefused::Memory => Refused::Memory,
    }
}

/// A refusal of the inputs.
pub fn inputs_refused(refused: EvalRefused) -> Refused
    ensures { result ≡ eval_refused refused }
{
    match refused {
        EvalRefused::InputCount { have, need } => Refused::Input { have, need },
        EvalRefused::Memory => Refused::Memory,
    }
}
