//! The refusals of each pass, as those of the whole.

ghost use Rattle.std.specs.Prelude.{◌≡◌};
ghost use Rattle.arr_compile.specs.Kinds.{lexed, parsed, checked, kind_of};

use crate::refused::{BadProgram, CompileRefused};
use arr_ast::ProgramKind;
use arr_check::{CheckKind, CheckRefused};
use arr_lex::LexRefused;
use arr_parse::ParseRefused;

fn at(at: usize, kind: ProgramKind) -> CompileRefused
    ensures { result ≡ CompileRefused.Bad (BadProgram.At at kind) }
{
    CompileRefused::Bad(BadProgram::At { at, kind })
}

/// A refusal of the lexer.
pub fn lex_refused(refused: LexRefused) -> CompileRefused
    ensures { result ≡ lexed refused }
{
    match refused {
        LexRefused::Lex { at: place } => at(place, ProgramKind::Lex),
        LexRefused::Memory => CompileRefused::Memory,
    }
}

/// A refusal of the parser.
pub fn parse_refused(refused: ParseRefused) -> CompileRefused
    ensures { result ≡ parsed refused }
{
    match refused {
        ParseRefused::Syntax { at: place } => at(place, ProgramKind::Syntax),
        ParseRefused::Nesting { at: place } => at(place, ProgramKind::Nesting),
        ParseRefused::Memory => CompileRefused::Memory,
    }
}

/// A refusal of the checks.
pub fn check_refused(refused: CheckRefused) -> CompileRefused
    ensures { result ≡ checked refused }
{
    match refused {
        CheckRefused::Bad { at: place, kind } => at(place, kind_of(kind)),
        CheckRefused::Memory => CompileRefused::Memory,
    }
}

fn kind_of(kind: CheckKind) -> ProgramKind
    ensures { result ≡ kind_of kind }
{
    match kind {
        CheckKind::Unknown => ProgramKind::Unknown,
        CheckKind::Taken => ProgramKind::Taken,
        CheckKind::Shape => ProgramKind::Shape,
        CheckKind::Index => ProgramKind::Index,
        CheckKind::IndexSize => ProgramKind::IndexSize,
        CheckKind::Bounds => ProgramKind::Bounds,
        CheckKind::Steps => ProgramKind::Steps,
        CheckKind::Nodes => ProgramKind::Nodes,
        CheckKind::Defs => ProgramKind::Defs,
        CheckKind::Dims => ProgramKind::Dims,
        CheckKind::Outputs => ProgramKind::Outputs,
        CheckKind::NoOutput => ProgramKind::NoOutput,
    }
}
