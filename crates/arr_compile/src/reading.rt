//! The program of a text.

ghost use Rattle.std.specs.Prelude.{◌≡◌, ◌≤◌, length, IfOk, IfErr};
ghost use Rattle.arr_ast.specs.ProgramTree.{program_tree};
ghost use Rattle.arr_compile.specs.Programs.{IsAccepted, Refuses};

use crate::kinds::{check_refused, lex_refused, parse_refused};
use crate::refused::CompileRefused;
use arr_ast::Lang;
use arr_check::{Checked, check};
use arr_lex::tokens;
use arr_parse::parse;
use std::alloc::Global;

/// The program of a text in a language, whose run over shapes nothing refuses, or the first
/// refusal: `Bad` with its kind and place exactly where the text is refused so, or `Memory`.
pub fn read_program(alloc: Global, text: &[u8], lang: Lang) -> Result<Checked, CompileRefused>
    requires { length text.now ≤ 65536 }
    ensures accepted { IfOk result
        (λ checked. IsAccepted lang text.now (program_tree checked.program)) }
    ensures lang { IfOk result (λ checked. checked.lang ≡ lang) }
    ensures refused { IfErr result (λ refused. Refuses lang text.now refused) }
{
    let tokens = match tokens(alloc, text) {
        Ok(tokens) => tokens,
        Err(refused) => return Err(lex_refused(refused)),
    };
    let program = match parse(alloc, text, &tokens, lang) {
        Ok(program) => program,
        Err(refused) => return Err(parse_refused(refused)),
    };
    match check(alloc, program, lang) {
        Ok(checked) => Ok(checked),
        Err(refused) => Err(check_refused(refused)),
    }
}
