//! The value of a checked program.

ghost use Rattle.std.specs.Prelude.{vec_items};
ghost use Rattle.arr_ast.specs.ProgramTree.{program_tree};
ghost use Rattle.arr_eval.specs.Evaluated.{Evaluates};

use crate::machine::Numbers;
use crate::refused::EvalRefused;
use arr_check::Checked;
use arr_run::run;
use arr_scope::CheckRefused;
use field_ext::Fp;
use std::alloc::Global;

/// What a program puts out: the elements of its outputs in order, each array row by row.
///
/// The inputs take the numbers in the order of their declarations, each array row by row; there
/// have to be `checked.inputs` of them in all. `InputCount` comes exactly where there are not, and
/// reports both counts. `Memory` is meant for where memory runs out. The time is meant to be linear in
/// the elements that are computed, the steps that are run and the parts of index expressions.
pub fn eval(alloc: Global, checked: &Checked, inputs: &[Fp]) -> Result<Vec<Fp>, EvalRefused>
    ensures { Evaluates vec_items checked.now.lang (program_tree checked.now.program)
        inputs.now result }
{
    let have = inputs.len() as u64;
    let need = checked.inputs;
    if have != need {
        return Err(EvalRefused::InputCount { have, need });
    }
    let mut numbers = Numbers {
        alloc,
        inputs,
        outputs: Vec::new(alloc),
    };
    match run(alloc, &mut numbers, &checked.program, checked.lang) {
        Ok(_) => {
            let Numbers { outputs, .. } = numbers;
            Ok(outputs)
        }
        Err(CheckRefused::Memory) => Err(EvalRefused::Memory),
        Err(CheckRefused::Bad { .. }) => unreachable!(),
    }
}
