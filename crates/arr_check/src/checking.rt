//! The checks of whole programs.

ghost use Rattle.std.specs.Prelude.{◌≡◌, IfOk};
ghost use Rattle.arr_ast.specs.ProgramTree.{program_tree};
ghost use Rattle.arr_scope.specs.Agrees.{Agrees};
ghost use Rattle.arr_check.specs.Program.{run_end, run_program};

use crate::checked::Checked;
use crate::shapes::Shapes;
use arr_ast::{Lang, Program};
use arr_run::run;
use arr_scope::CheckRefused;
use std::alloc::Global;

/// A program that no check of its language refuses, or the first refusal.
pub fn check(alloc: Global, program: Program, lang: Lang) -> Result<Checked, CheckRefused>
    ensures exact { Agrees (λ checked. run_end lang (program_tree checked.program)) result
        (run_program lang (program_tree program)) }
    ensures same { IfOk result (λ checked. program_tree checked.program ≡ program_tree program) }
    ensures lang { IfOk result (λ checked. checked.lang ≡ lang) }
{
    let ran = run(alloc, &mut Shapes {}, &program, lang)?;
    Ok(Checked {
        lang,
        program,
        inputs: ran.inputs,
        outputs: ran.counts.outputs,
        nodes: ran.counts.nodes,
    })
}
