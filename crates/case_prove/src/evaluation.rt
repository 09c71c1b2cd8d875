//! The outputs of a case.

ghost use Rattle.std.specs.Prelude.{IfOk, IfErr};
ghost use Rattle.case_prove.specs.Evaluated.{IsEvaluated, Refuses};

use crate::refused::{Refused, inputs_refused, program_refused};
use arr_compile::read_program;
use arr_eval::eval;
use case_text::Case;
use field_ext::Fp;
use std::alloc::Global;

/// The meaning of the case's program on its inputs. It is refused as `Program` exactly where the program's text is
/// refused so, and else as `Input` exactly where the numbers of inputs differ. Outputs and proof of the case play no part.
pub fn eval_case(alloc: Global, case: &Case) -> Result<Vec<Fp>, Refused>
    ensures outputs { IfOk result (λ outputs. IsEvaluated case.now outputs.items) }
    ensures refused { IfErr result (λ refused. Refuses case.now refused) }
{
    let checked = match read_program(alloc, case.program(), case.lang()) {
        Ok(checked) => checked,
        Err(refused) => return Err(program_refused(refused)),
    };
    match eval(alloc, &checked, case.inputs()) {
        Ok(outputs) => Ok(outputs),
        Err(refused) => Err(inputs_refused(refused)),
    }
}
