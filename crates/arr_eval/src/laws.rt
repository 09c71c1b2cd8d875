//! Laws of evaluation, in the language's own words. Each function does nothing: its contract is a
//! law that is proved.

ghost use Rattle.std.specs.Prelude.{◌≡◌, ℕ, ◌+◌, ◌*◌, ◌<◌, List, ◌++◌, length, Ok, IsTrue, is_ok, IsSome};
ghost use Rattle.arr_ast.specs.IndexTree.{Sum};
ghost use Rattle.arr_ast.specs.ExpressionTree.{NameTree, ExpressionTree};
ghost use Rattle.arr_ast.specs.declared.lang.Lang.{Lang};
ghost use Rattle.arr_ast.specs.declared.lang.Lang.TheVariants.{One, Two};
ghost use Rattle.arr_ast.specs.ProgramTree.{DefinitionTree, ProgramTree};
ghost use Rattle.arr_scope.specs.declared.counts.Counts.{Counts};
ghost use Rattle.arr_scope.specs.Agrees.{Answer};
ghost use Rattle.arr_run.specs.Expression.{Valued, value_of};
ghost use Rattle.arr_scope.specs.Scope.{Names};
ghost use Rattle.arr_scope.specs.Shape.{size_of};
ghost use Rattle.arr_run.specs.Definitions.{callables};
ghost use Rattle.arr_run.specs.State.{State};
ghost use Rattle.arr_run.specs.Statement.{counted_loop, loop_in_order};
ghost use Rattle.arr_check.specs.Program.{run_program};
ghost use Rattle.field_ext.specs.Field.{F, add_f};
ghost use Rattle.arr_eval.specs.Meaning.{Kept, meaning, numbers};
ghost use Rattle.arr_eval.specs.Numbers.{element, sum_of, dot_of, transpose_of, matmul_of, row, column};
ghost use Rattle.arr_eval.specs.Sizes.{AllSized};

/// A program that the checks accept has a meaning, whatever its inputs are.
pub fn has_meaning()
    ensures { (lang : Lang) (program : ProgramTree) (inputs : List F) → IsTrue
        (is_ok (run_program lang program))
        → IsSome (meaning lang program inputs) }
{}

/// A program that the first language accepts means the same in the second.
pub fn same_meaning()
    ensures { (program : ProgramTree) (inputs : List F)
        → IsTrue (is_ok (run_program One program))
        → meaning Two program inputs ≡ meaning One program inputs }
{}

/// The sum of a list in two parts is the sum of the sums of its parts. So a sum by halves, of
/// halves of halves, is the same as the sum from the left.
pub fn sum_in_parts()
    ensures { (front rest : List F) → sum_of (front ++ rest) ≡ add_f (sum_of front) (sum_of rest) }
{}

/// An element of a product of matrices is the dot product of a row and a column.
pub fn matmul_element()
    ensures { (n m q : ℕ) (left right : List F) (i j : ℕ) → i < n → j < q →
        element (matmul_of n m q left right) (i * q + j) ≡ dot_of (row m left i)
        (column m q right j) }
{}

/// The transpose has at row j and column i what the matrix has at row i and column j.
pub fn transpose_element()
    ensures { (n m : ℕ) (items : List F) (i j : ℕ) → i < n → j < m →
        element (transpose_of n m items) (j * n + i) ≡ element items (i * m + j) }
{}

/// A matrix that is transposed twice is the matrix.
pub fn transposed_twice()
    ensures { (n m : ℕ) (items : List F) → length items ≡ n * m
        → transpose_of m n (transpose_of n m items) ≡ items }
{}

/// A loop runs its body once for each number from its lower bound on, below its upper bound, in
/// order, with the loop variable at that number.
pub fn turns_in_order()
    ensures { (definitions : List DefinitionTree) (at : ℕ) (name : NameTree) (low high : Sum)
        (body : State (List F) Kept → Answer (State (List F) Kept)) (before : State (List F) Kept) →
        counted_loop numbers definitions at name low high body before
        ≡ loop_in_order numbers definitions at name low high body before }
{}

/// Where the array of each name has as many elements as its shape has places, so has the value of
/// each expression.
pub fn values_are_sized()
    ensures { (definitions : List DefinitionTree) (expression : ExpressionTree)
        (names : Names (List F)) (counts : Counts) (kept : Kept) (found : Valued (List F) Kept)
        → AllSized names →
        value_of numbers (callables numbers definitions) expression names counts kept ≡ Ok found
        → length found.1 ≡ size_of found.0 }
{}
