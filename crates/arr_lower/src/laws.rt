//! Laws of lowering, in the words of programs and of nodes. Each function does nothing: its
//! contract is a law that is proved.

ghost use Rattle.std.specs.Prelude.{◌≡◌, ℕ, ◌<◌, ◌≤◌, List, length, map, slice_index_or, All, IsTrue, is_ok, IsSome, Option, Some};
ghost use Rattle.arr_ast.specs.declared.lang.Lang.{Lang};
ghost use Rattle.arr_ast.specs.declared.lang.Lang.TheVariants.{One, Two};
ghost use Rattle.arr_ast.specs.ProgramTree.{ProgramTree};
ghost use Rattle.arr_run.specs.Program.{input_count};
ghost use Rattle.arr_check.specs.Program.{run_program, run_end};
ghost use Rattle.field_ext.specs.Field.{F};
ghost use Rattle.circuit_core.specs.Parts.{zero_f};
ghost use Rattle.node_core.specs.Nodes.{Nodes, IsFineAt, IsNodeList, node_at, values};
ghost use Rattle.arr_eval.specs.Meaning.{meaning};
ghost use Rattle.arr_lower.specs.Lowering.{nodes_of};

/// A program has nodes exactly where the checks accept it.
pub fn has_nodes()
    ensures some { (lang : Lang) (program : ProgramTree) → IsTrue (is_ok (run_program lang program))
        → IsSome (nodes_of lang program) }
    ensures accepted { (lang : Lang) (program : ProgramTree) (nodes : Nodes) → nodes_of lang program
        ≡ Some nodes
        → IsTrue (is_ok (run_program lang program)) }
{}

/// A program that the first language accepts has the same nodes in the second.
pub fn same_nodes()
    ensures { (program : ProgramTree) → IsTrue (is_ok (run_program One program))
        → nodes_of Two program ≡ nodes_of One program }
{}

/// The nodes that the checks count are those that are made.
pub fn nodes_counted()
    ensures { (lang : Lang) (program : ProgramTree) (nodes : Nodes) → nodes_of lang program
        ≡ Some nodes
        → length nodes.nodes ≡ (run_end lang program).nodes }
{}

/// The outputs of an accepted program are as many nodes as the checks count, and at least one.
pub fn has_outputs()
    ensures { (lang : Lang) (program : ProgramTree) (nodes : Nodes) → IsTrue
        (is_ok (run_program lang program))
        → nodes_of lang program ≡ Some nodes →
        (length nodes.outputs ≡ (run_end lang program).outputs) × (1 ≤ length nodes.outputs) }
{}

/// A program has at most 65,535 outputs.
pub fn few_outputs()
    ensures { (lang : Lang) (program : ProgramTree) (nodes : Nodes)
        → nodes_of lang program ≡ Some nodes → length nodes.outputs ≤ 65535 }
{}

/// The nodes of a program are in order: each names inputs of the program and nodes before it,
/// and each output is one of them. There is an output, and there are few enough nodes and outputs
/// for their numbers.
pub fn nodes_in_order()
    ensures inputs { (lang : Lang) (program : ProgramTree) (nodes : Nodes) → nodes_of lang program
        ≡ Some nodes
        → nodes.inputs ≡ input_count program.inputs }
    ensures fine { (lang : Lang) (program : ProgramTree) (nodes : Nodes) → nodes_of lang program
        ≡ Some nodes →
        (k : ℕ) → k < length nodes.nodes → IsFineAt nodes.inputs k (node_at nodes k) }
    ensures outputs { (lang : Lang) (program : ProgramTree) (nodes : Nodes) → nodes_of lang program
        ≡ Some nodes →
        All (λ output. output < length nodes.nodes) nodes.outputs }
    ensures list { (lang : Lang) (program : ProgramTree) (nodes : Nodes) → nodes_of lang program
        ≡ Some nodes
        → IsNodeList nodes }
{}

/// What a program puts out for its inputs are the values of its output nodes.
pub fn nodes_mean()
    ensures { (lang : Lang) (program : ProgramTree) (nodes : Nodes) (inputs : List F)
        → nodes_of lang program ≡ Some nodes → length inputs ≡ input_count program.inputs →
        meaning lang program inputs ≡ Some
        (map (λ k. slice_index_or (values nodes inputs) k zero_f) nodes.outputs) }
{}
