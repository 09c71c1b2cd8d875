//! The circuit of a text.

ghost use Rattle.std.specs.Prelude.{◌≡◌, ◌≤◌, List, length, IfOk, IfErr};
ghost use Rattle.field_ext.specs.Field.{F};
ghost use Rattle.arr_ast.specs.ProgramTree.{ProgramTree};
ghost use Rattle.arr_run.specs.Program.{input_count};
ghost use Rattle.arr_compile.specs.Programs.{IsRead};
ghost use Rattle.arr_compile.specs.Circuits.{limits_of, IsCompiled, RefusesCircuit, Computes};

use crate::laws::compiled_computes;
use crate::reading::read_program;
use crate::refused::{BadProgram, CompileRefused};
use arr_ast::Lang;
use arr_lower::lower;
use circuit_core::Circuit;
use layer_compile::{LayerRefused, Limits, layer};
use std::alloc::Global;

/// A program laid out as a circuit.
#[derive(Drop)]
pub struct Compiled {
    pub circuit: Circuit,
}

/// The circuit of a text's program, or the first refusal of all passes.
fn lay_out(alloc: Global, text: &[u8], lang: Lang) -> Result<Compiled, CompileRefused>
    requires { length text.now ≤ 65536 }
    ensures compiled { IfOk result (λ compiled. IsCompiled lang text.now compiled.circuit.parts) }
    ensures refused { IfErr result (λ refused. RefusesCircuit lang text.now refused) }
{
    let checked = match read_program(alloc, text, lang) {
        Ok(checked) => checked,
        Err(refused) => return Err(refused),
    };
    match lower(alloc, &checked) {
        Ok(nodes) => match layer(alloc, &nodes, limits_of(lang)) {
            Ok(circuit) => Ok(Compiled { circuit }),
            Err(LayerRefused::Deep { levels }) => {
                Err(CompileRefused::Bad(BadProgram::Deep { levels }))
            }
            Err(LayerRefused::Wide { height, width }) => {
                Err(CompileRefused::Bad(BadProgram::Wide { height, width }))
            }
            Err(LayerRefused::Memory) => Err(CompileRefused::Memory),
        },
        Err(_) => Err(CompileRefused::Memory),
    }
}

/// How high and how wide a circuit of a language may be.
fn limits_of(lang: Lang) -> Limits
    ensures { result ≡ limits_of lang }
{
    match lang {
        Lang::One => Limits::of(256, 16),
        Lang::Two => Limits::of(1024, 20),
    }
}

/// The circuit of a text's program in a language, or the first refusal of all passes: `Bad` with
/// `At` exactly where `read_program` refuses the text so, and else with `Deep` where the circuit
/// would have more than 256 layers above the input (in language 2 more than 1,024), or with `Wide`
/// where a height needs more than 65,536 positions (in language 2 more than 1,048,576); or
/// `Memory`. The circuit computes what the text's tree means.
pub fn compile(alloc: Global, text: &[u8], lang: Lang) -> Result<Compiled, CompileRefused>
    requires { length text.now ≤ 65536 }
    ensures compiled { IfOk result (λ compiled. IsCompiled lang text.now compiled.circuit.parts) }
    ensures computes { IfOk result (λ compiled. (tree : ProgramTree) (inputs : List F)
        → IsRead lang text.now tree →
        length inputs ≡ input_count tree.inputs
        → Computes lang tree compiled.circuit.parts inputs) }
    ensures refused { IfErr result (λ refused. RefusesCircuit lang text.now refused) }
{
    compiled_computes();
    let compiled = lay_out(alloc, text, lang)?;
    Ok(compiled)
}
