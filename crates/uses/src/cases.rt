//! A case that is written and read again.

ghost use Rattle.std.specs.Prelude.{Ok};
ghost use Rattle.case_text.specs.Reading.{Answers};

use case_text::{Case, CaseRefused, Form, read_case, write_case};
use std::alloc::Global;

/// What is read from a case's own text is the case, unless memory runs out.
pub fn write_and_read(alloc: Global, case: &Case) -> Result<Case, CaseRefused>
    ensures { Answers result (Ok case.now) }
{
    let Ok(text) = write_case(alloc, case) else {
        return Err(CaseRefused::Memory);
    };
    read_case(alloc, &text, Form::Any)
}
