//! What holds of readings by their definitions alone.

ghost use Rattle.std.specs.Prelude.{◌≡◌, ◌≤◌, ℕ, List, ◌++◌, length, None, Ok};
ghost use Rattle.circuit_core.specs.Faults.{fault_of};
ghost use Rattle.circuit_core.specs.Parts.{Parts};
ghost use Rattle.circuit_core.specs.Sound.{greatest};
ghost use Rattle.field_ext.specs.Field.{F};
ghost use Rattle.arr_ast.specs.declared.lang.Lang.{Lang};
ghost use Rattle.arr_ast.specs.ProgramTree.{ProgramTree};
ghost use Rattle.arr_eval.specs.Meaning.{meaning};
ghost use Rattle.arr_lex.specs.declared.token.Token.{Token};
ghost use Rattle.arr_lex.specs.Blank.{IsWhiteSpace};
ghost use Rattle.arr_lex.specs.Lexing.{tokens_from};
ghost use Rattle.arr_parse.specs.Unplaced.{unplaced};
ghost use Rattle.arr_run.specs.Program.{input_count};
ghost use Rattle.arr_compile.specs.declared.refused.BadProgram.{BadProgram};
ghost use Rattle.arr_compile.specs.Programs.{IsRead, IsAccepted, IsRefusal};
ghost use Rattle.arr_compile.specs.Circuits.{IsCompiled, IsCircuitRefusal, Computes};
ghost use Rattle.arr_compile.specs.Languages.{KeepsPrograms, KeepsCircuits};

use arr_check::laws::accepted_in_two;
use arr_eval::laws::same_meaning;
use arr_lex::laws::{same_anywhere, spans, white_space_moves};
use arr_lower::laws::{few_outputs, has_outputs, nodes_in_order, nodes_mean, same_nodes};
use arr_parse::laws::{one_program_tree, one_tree_of_words, read_in_two};
use layer_compile::laws::{no_fault, outputs_in_order, wider_fits};

/// A text has at most one tree.
pub fn one_tree()
    ensures { (lang : Lang) (text : List ℕ) (a b : ProgramTree) → IsRead lang text a
        → IsRead lang text b → a ≡ b }
{
    one_program_tree();
}

/// A text has at most one first refusal.
pub fn one_refusal()
    ensures { (lang : Lang) (text : List ℕ) (a b : BadProgram) → IsRefusal lang text a
        → IsRefusal lang text b → a ≡ b }
{
    one_tree();
}

/// No text is both accepted and refused.
pub fn accepted_or_refused()
    ensures { (lang : Lang) (text : List ℕ) (tree : ProgramTree) (bad : BadProgram)
        → IsAccepted lang text tree
        → ¬ IsRefusal lang text bad }
{
    one_tree();
}

/// Programs that differ in no more than the places of their parts and the lengths of their texts mean the same.
pub fn places_play_no_part()
    ensures { (lang : Lang) (a b : ProgramTree) → unplaced a ≡ unplaced b → (inputs : List F)
        → meaning lang a inputs ≡ meaning lang b inputs }
{}

/// White space between tokens changes no tree: texts that have other white space at one place after whole tokens have the
/// same tree, but for places.
pub fn white_space()
    ensures { (lang : Lang) (front back blanks others : List ℕ) (tokens : List Token)
        → tokens_from 0 0 front ≡ Ok tokens → IsWhiteSpace blanks → IsWhiteSpace others →
        (a b : ProgramTree) → IsRead lang (front ++ (blanks ++ back)) a
        → IsRead lang (front ++ (others ++ back)) b → unplaced a ≡ unplaced b }
{
    spans();
    same_anywhere();
    white_space_moves();
    one_tree_of_words();
}

/// White space between tokens changes no meaning: texts that have other white space at one place after whole tokens put out
/// the same for the same inputs.
pub fn white_space_means_nothing()
    ensures { (lang : Lang) (front back blanks others : List ℕ) (tokens : List Token)
        → tokens_from 0 0 front ≡ Ok tokens → IsWhiteSpace blanks → IsWhiteSpace others →
        (a b : ProgramTree) → IsRead lang (front ++ (blanks ++ back)) a
        → IsRead lang (front ++ (others ++ back)) b → (inputs : List F)
        → meaning lang a inputs ≡ meaning lang b inputs }
{
    places_play_no_part();
    white_space();
}

/// A text has at most one circuit.
pub fn one_circuit()
    ensures { (lang : Lang) (text : List ℕ) (a b : Parts) → IsCompiled lang text a
        → IsCompiled lang text b → a ≡ b }
{
    one_tree();
}

/// A text has at most one first refusal of all passes.
pub fn one_circuit_refusal()
    ensures { (lang : Lang) (text : List ℕ) (a b : BadProgram) → IsCircuitRefusal lang text a
        → IsCircuitRefusal lang text b
        → a ≡ b }
{
    one_tree();
}

/// No text has both a circuit and a refusal.
pub fn compiled_or_refused()
    ensures { (lang : Lang) (text : List ℕ) (parts : Parts) (bad : BadProgram)
        → IsCompiled lang text parts
        → ¬ IsCircuitRefusal lang text bad }
{
    one_tree();
}

/// The circuit of a program computes what the program means: on inputs of its count the output layer has at its first
/// positions past 0 the program's outputs in order, and 0 at all others.
pub fn circuit_computes()
    ensures inputs { (lang : Lang) (text : List ℕ) (parts : Parts) (is : IsCompiled lang text parts)
        → parts.inputs ≡ input_count is.tree.inputs }
    ensures computes { (lang : Lang) (text : List ℕ) (parts : Parts)
        (is : IsCompiled lang text parts)
        (inputs : List F) → length inputs ≡ parts.inputs → Computes lang is.tree parts inputs }
{
    nodes_in_order();
    nodes_mean();
    outputs_in_order();
}

/// The circuit of a text computes what the text's tree means.
pub fn compiled_computes()
    ensures { (lang : Lang) (text : List ℕ) (parts : Parts) (tree : ProgramTree) (inputs : List F)
        → IsCompiled lang text parts → IsRead lang text tree →
        length inputs ≡ input_count tree.inputs → Computes lang tree parts inputs }
{
    one_tree();
    circuit_computes();
}

/// The circuit of a program has no fault, and an output, of which there are at most 65,535.
pub fn circuit_is_sound()
    ensures faultless { (lang : Lang) (text : List ℕ) (parts : Parts) → IsCompiled lang text parts
        → fault_of greatest parts ≡ None }
    ensures has_output { (lang : Lang) (text : List ℕ) (parts : Parts) → IsCompiled lang text parts
        → 1 ≤ parts.outputs }
    ensures few_outputs { (lang : Lang) (text : List ℕ) (parts : Parts) → IsCompiled lang text parts
        → parts.outputs ≤ 65535 }
{
    has_outputs();
    few_outputs();
    nodes_in_order();
    no_fault();
}

/// A text that the first language accepts is accepted in the second, with the same tree, meaning
/// and nodes, and with the same circuit where it has one in the first.
pub fn kept_in_two()
    ensures programs { KeepsPrograms }
    ensures circuits { KeepsCircuits }
{
    read_in_two();
    accepted_in_two();
    same_meaning();
    same_nodes();
    wider_fits();
}
