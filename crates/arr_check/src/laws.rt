//! Laws of the run over shapes, each a function that does nothing and ensures the law.

ghost use Rattle.std.specs.Prelude.{◌≡◌, ℕ, List, IsTrue, is_ok};
ghost use Rattle.arr_ast.specs.ExpressionTree.{NameTree};
ghost use Rattle.arr_ast.specs.IndexTree.{Sum};
ghost use Rattle.arr_scope.specs.Agrees.{Answer};
ghost use Rattle.arr_ast.specs.declared.lang.Lang.TheVariants.{One, Two};
ghost use Rattle.arr_ast.specs.ProgramTree.{DefinitionTree, ProgramTree};
ghost use Rattle.arr_run.specs.State.{State};
ghost use Rattle.arr_run.specs.Statement.{counted_loop, loop_in_order};
ghost use Rattle.arr_check.specs.declared.shapes.Shapes.{Shapes};
ghost use Rattle.arr_check.specs.Program.{run_program};
ghost use Rattle.arr_check.specs.Shapes.{shapes};

/// A loop of LO..HI runs its body HI - LO times, with its variable at LO, LO + 1 and so on up to HI - 1, in this order.
pub fn turns_in_order()
    ensures { (definitions : List DefinitionTree) (at : ℕ) (name : NameTree) (low high : Sum)
        (body : State (Unit {0}) Shapes → Answer (State (Unit {0}) Shapes))
        (before : State (Unit {0}) Shapes) →
        counted_loop shapes definitions at name low high body before
        ≡ loop_in_order shapes definitions at name low high body before }
{}

/// A program that the first language accepts is accepted in the second.
pub fn accepted_in_two()
    ensures { (program : ProgramTree) → IsTrue (is_ok (run_program One program))
        → IsTrue (is_ok (run_program Two program)) }
{}
