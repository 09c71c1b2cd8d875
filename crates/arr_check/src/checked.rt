//! Programs that no check refuses.

ghost use Rattle.std.specs.Prelude.{◌≡◌, IsTrue, is_ok};
ghost use Rattle.arr_ast.specs.ProgramTree.{program_tree};
ghost use Rattle.arr_check.specs.Program.{run_program, run_end};
ghost use Rattle.arr_run.specs.Program.{input_count};

use arr_ast::{Lang, Program};

/// A program that no check of its language refuses, with what its run counts.
#[derive(Drop)]
pub struct Checked {
    pub lang: Lang,
    pub program: Program,
    pub inputs: u64,
    pub outputs: u64,
    pub nodes: u64,
    pub ghost accepted: { IsTrue (is_ok (run_program lang (program_tree program))) },
    pub ghost inputs_counted: { inputs ≡ input_count (program_tree program).inputs },
    pub ghost outputs_counted: { outputs ≡ (run_end lang (program_tree program)).outputs },
    pub ghost nodes_counted: { nodes ≡ (run_end lang (program_tree program)).nodes },
}
